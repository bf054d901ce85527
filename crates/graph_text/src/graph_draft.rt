// A graph that is being read.
ghost use Rattle.std.specs.Prelude.{◌≡◌, ◌&&◌, ◌==◌, nat_lt, if◌then◌else◌, Some, None, ℕ, ◌+◌};
ghost use Rattle.std.specs.Prelude.{◌<◌, ◌^◌, length, IfOk, OnOk, IfNone, vec_len, map, pos};
ghost use Rattle.std.specs.List.{range_with_len};
ghost use Rattle.std.specs.Option.{unwrap_or};
ghost use Rattle.bolt_base.specs.Graph.{edges};
ghost use Rattle.bolt_base.specs.Edits.{is_between as is_between_of, unless, has_degrees, has_room};
ghost use Rattle.graph_text.specs.GraphText.{cause as cause_of, taken_in, bound as bound_of, blank};
ghost use Rattle.graph_text.specs.GraphText.{complete};
ghost use Rattle.graph_text.specs.EdgeIndex.{edges_alone};
ghost use Rattle.graph_text.specs.DraftCode.{attr_at, draft_of, named_in};
ghost use Rattle.graph_text.specs.declared.graph_lines.GraphLine.TheVariants.{Vertices, Attr};
ghost use Rattle.graph_text.specs.declared.graph_lines.GraphLine.TheVariants.{Edge as EdgeLine};

use crate::edge_set::EdgeSet;
use crate::graph_lines::GraphLine;
use bolt_base::{AttrList, Edge, GraphData, Limits, LineCause, Memory};
use std::alloc::Global;

/// The lines so far of a graph text: whether one of them isn't empty, the number of vertices where
/// it was told, 1 more than the
/// greatest vertex that was named, the attributes up to the greatest vertex that was given one, and
/// the edges.
#[derive(Drop)]
pub struct GraphDraft {
    pub begun: bool,
    pub counted: Option<u32>,
    pub named: usize,
    pub attrs: Vec<Option<i64>>,
    pub edges: EdgeSet,
}

/// Has a place for the attribute of each vertex up to this one.
fn cover_attrs(attrs: &mut Vec<Option<i64>>, vertex: u32) -> Result<(), Memory>
    ensures there { OnOk result (vertex < vec_len attrs.new) }
    ensures same { OnOk result ((v : ℕ) → attr_at attrs.new.items v ≡ attr_at attrs.old.items v) }
{
    let count = vertex as usize + 1;
    if attrs.len() >= count {
        return Ok(());
    }
    attrs.resize(count, None)?;
    Ok(())
}

/// The attribute of a vertex, where one was given.
fn attr_of(attrs: &[Option<i64>], vertex: usize) -> Option<i64>
    ensures { result ≡ attr_at attrs.now vertex }
{
    match attrs.get(vertex) {
        Some(attr) => *attr,
        None => None,
    }
}

/// The attributes of that many vertices, 0 where none was given.
fn attrs_of(alloc: Global, given: &[Option<i64>], count: usize) -> Result<AttrList, Memory>
    ensures { IfOk result (λ attrs. attrs
        ≡ map (λ v. unwrap_or (attr_at given.now v) (pos 0)) (range_with_len 0 count)) }
{
    let mut attrs = AttrList::new(alloc);
    for v in 0..count {
        attrs.push(attr_of(given, v).unwrap_or(0))?;
    }
    Ok(attrs)
}

/// Gives a vertex an attribute.
fn set_attr(attrs: &mut Vec<Option<i64>>, vertex: u32, attr: i64)
    requires { vertex < vec_len attrs.old }
    ensures { (v : ℕ) → attr_at attrs.new.items v
        ≡ (if v == vertex then Some attr else attr_at attrs.old.items v) }
{
    attrs[vertex as usize] = Some(attr);
}

fn is_between(lo: i64, hi: i64, x: i64) -> bool
    ensures { result ≡ is_between_of lo hi x }
{
    lo <= x && x <= hi
}

impl GraphDraft {
    /// No line.
    pub fn new(alloc: Global) -> GraphDraft
        ensures { draft_of result ≡ blank }
    {
        GraphDraft {
            begun: false,
            counted: None,
            named: 0,
            attrs: Vec::new(alloc),
            edges: EdgeSet::new(alloc),
        }
    }

    // The number that each vertex has to be below.
    fn bound(&self, limits: &Limits) -> u32
        ensures { result ≡ bound_of limits.now (draft_of self.now) }
    {
        self.counted.unwrap_or(limits.vertices)
    }

    // Notes that a line names vertices up to this one.
    fn name(&mut self, vertex: u32)
        ensures { self.new ≡ named_in self.old vertex }
    {
        self.named = self.named.max(vertex as usize + 1);
        self.begun = true;
    }

    // Takes in the number of vertices, unless the line is bad.
    #[tactic(auto, unfolding(crate::specs::GraphText::cause, crate::specs::GraphText::taken_in))]
    fn take_vertices(&mut self, limits: &Limits, count: u32) -> Option<LineCause>
        ensures cause { result ≡ cause_of limits.now (draft_of self.old) (Vertices count) }
        ensures taken { IfNone result
            (draft_of self.new ≡ taken_in (draft_of self.old) (Vertices count)) }
    {
        if self.begun {
            return Some(LineCause::Syntax);
        }
        if count > limits.vertices {
            return Some(LineCause::Vertex);
        }
        self.begun = true;
        self.counted = Some(count);
        None
    }

    // Takes in the attribute of a vertex, unless the line is bad.
    #[tactic(auto, unfolding(crate::specs::GraphText::cause, crate::specs::GraphText::taken_in))]
    fn take_attr(
        &mut self,
        limits: &Limits,
        vertex: u32,
        attr: i64,
    ) -> Result<Option<LineCause>, Memory>
        ensures cause { IfOk result (λ r. r
            ≡ cause_of limits.now (draft_of self.old) (Attr vertex attr)) }
        ensures taken { IfOk result (λ r. IfNone r
            (draft_of self.new ≡ taken_in (draft_of self.old) (Attr vertex attr))) }
    {
        if vertex >= self.bound(limits) {
            return Ok(Some(LineCause::Vertex));
        }
        if !is_between(limits.attr_lo, limits.attr_hi, attr) {
            return Ok(Some(LineCause::Attribute));
        }
        if attr_of(&self.attrs, vertex as usize).is_some() {
            return Ok(Some(LineCause::Present));
        }
        cover_attrs(&mut self.attrs, vertex)?;
        set_attr(&mut self.attrs, vertex, attr);
        self.name(vertex);
        Ok(None)
    }

    // The cause for which an edge is bad, but for an edge that is there already and for the limits
    // of degrees and edges.
    fn ends_cause(&self, limits: &Limits, edge: Edge) -> Option<LineCause>
        ensures { result ≡ unless (nat_lt edge.src (bound_of limits.now (draft_of self.now))
            && nat_lt edge.dst (bound_of limits.now (draft_of self.now))) LineCause.Vertex
            (unless (is_between_of limits.now.weight_lo limits.now.weight_hi edge.weight)
            LineCause.Weight None) }
    {
        let bound = self.bound(limits);
        if !(edge.src < bound && edge.dst < bound) {
            return Some(LineCause::Vertex);
        }
        if !is_between(limits.weight_lo, limits.weight_hi, edge.weight) {
            return Some(LineCause::Weight);
        }
        None
    }

    // The cause for which one more edge is too many, or none.
    fn room_cause(&self, limits: &Limits, edge: Edge) -> Option<LineCause>
        ensures fits { IfNone result (length (edges (edges_alone self.now.edges)) + 1 < 2 ^ 32) }
        ensures cause { result ≡ unless
            (has_degrees limits.now (edges_alone self.now.edges) edge.src edge.dst) LineCause.Degree
            (unless (has_room limits.now (edges_alone self.now.edges)) LineCause.Edges None) }
    {
        let out_degree = self.edges.out_degree(edge.src);
        let in_degree = self.edges.in_degree(edge.dst);
        if !(out_degree < limits.degree && in_degree < limits.degree) {
            return Some(LineCause::Degree);
        }
        if self.edges.len() >= limits.edges as usize {
            return Some(LineCause::Edges);
        }
        None
    }

    // Takes in an edge, unless it is bad.
    fn take_edge(&mut self, limits: &Limits, edge: Edge) -> Result<Option<LineCause>, Memory>
        ensures cause { IfOk result (λ r. r
            ≡ cause_of limits.now (draft_of self.old) (EdgeLine edge)) }
        ensures taken { IfOk result (λ r. IfNone r
            (draft_of self.new ≡ taken_in (draft_of self.old) (EdgeLine edge))) }
    {
        if let Some(cause) = self.ends_cause(limits, edge) {
            return Ok(Some(cause));
        }
        if let Some(cause) = self.room_cause(limits, edge) {
            let present = self.edges.contains(edge.src, edge.dst);
            return Ok(Some(if present { LineCause::Present } else { cause }));
        }
        if !self.edges.put(edge)? {
            return Ok(Some(LineCause::Present));
        }
        self.name(edge.src.max(edge.dst));
        Ok(None)
    }

    /// Takes a line in, unless it is bad: then it answers why.
    #[tactic(auto, unfolding(crate::specs::GraphText::cause, crate::specs::GraphText::taken_in))]
    pub fn take_line(
        &mut self,
        limits: &Limits,
        line: GraphLine,
    ) -> Result<Option<LineCause>, Memory>
        ensures cause { IfOk result (λ r. r ≡ cause_of limits.now (draft_of self.old) line) }
        ensures taken { IfOk result (λ r. IfNone r
            (draft_of self.new ≡ taken_in (draft_of self.old) line)) }
    {
        match line {
            GraphLine::Empty => Ok(None),
            GraphLine::Unknown => Ok(Some(LineCause::Syntax)),
            GraphLine::Vertices(count) => Ok(self.take_vertices(limits, count)),
            GraphLine::Attr { vertex, attr } => {
                let cause = self.take_attr(limits, vertex, attr)?;
                Ok(cause)
            }
            GraphLine::Edge(edge) => {
                let cause = self.take_edge(limits, edge)?;
                Ok(cause)
            }
        }
    }

    /// The graph of the lines.
    pub fn finish(self, alloc: Global) -> Result<GraphData, Memory>
        ensures { IfOk result (λ g. g ≡ complete (draft_of self)) }
    {
        let count = match self.counted {
            Some(count) => count as usize,
            None => self.named,
        };
        let attrs = attrs_of(alloc, &self.attrs, count)?;
        Ok(GraphData::new(attrs, self.edges.into_edges()))
    }
}
