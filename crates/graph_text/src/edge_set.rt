// The edges of a graph that is being read.
ghost use Rattle.std.specs.Prelude.{◌≡◌, ℕ, ◌+◌, ◌<◌, ◌^◌, ◌==◌, ◌&&◌, ◌||◌, false, length};
ghost use Rattle.std.specs.Prelude.{vec_len, map as map_edges, is_some, is_none, slice_index_or};
ghost use Rattle.std.specs.Prelude.{IfOk, OnOk, OnErr};
ghost use Rattle.std.specs.Bool.{OnTrue, OnFalse};
ghost use Rattle.std.specs.FinMap as finite;
ghost use Rattle.bolt_base.specs.Graph.{edges, outdeg, indeg};
ghost use Rattle.bolt_base.specs.Plain.{AreApart, entry};
ghost use Rattle.graph_text.specs.EdgeIndex.{edges_alone, has_at, count_at, one_if};

use crate::successors::Successors;
use bolt_base::{Edge, EdgeList, Memory};
use std::alloc::Global;
use std::marker::Model;

/// The edges of a graph in the order in which they came, no two with the same ends. Ends are looked
/// up, and the edges of a
/// vertex counted, in few steps.
#[derive(Drop)]
pub struct EdgeSet {
    edges: Vec<Edge>,
    rows: Vec<Successors>,
    in_degrees: Vec<u32>,
}

impl Model for EdgeSet {
    ghost use Rattle.std.specs.FinMap as finite;
    ghost use Rattle.std.specs.Coded.{coded×, coded_ℕ, coded_ℤ};
    ghost use Rattle.bolt_base.specs.Graph.{Weights};
    ghost use Rattle.graph_text.specs.EdgeIndex.{weights_of, IsIndexed};

    ghost Value = { Weights };

    ghost coded = { finite.code (coded× coded_ℕ coded_ℕ) coded_ℤ };

    ghost view = { λ s. weights_of s.edges.items };

    ghost invariant = { λ s. IsIndexed s.edges.items s.rows.items s.in_degrees.items };
}

// Has a row for each source up to this one.
fn cover_rows(rows: &mut Vec<Successors>, src: u32) -> Result<(), Memory>
    ensures there { OnOk result (src < vec_len rows.new) }
    ensures held { (u v : ℕ) → has_at rows.new.items u v ≡ has_at rows.old.items u v }
    ensures counts { (u : ℕ) → count_at rows.new.items u ≡ count_at rows.old.items u }
{
    let alloc = *rows.allocator();
    'rows: while rows.len() <= src as usize {
        rows.push(Successors::new(alloc))?;
    }
    Ok(())
}

// Has a count for each vertex up to this one.
fn cover_counts(counts: &mut Vec<u32>, vertex: u32) -> Result<(), Memory>
    ensures there { OnOk result (vertex < vec_len counts.new) }
    ensures same { (v : ℕ) → slice_index_or counts.new.items v 0
        ≡ slice_index_or counts.old.items v 0 }
{
    let count = vertex as usize + 1;
    if counts.len() >= count {
        return Ok(());
    }
    counts.resize(count, 0)?;
    Ok(())
}

// Puts an edge into the row of its source.
fn add_out(rows: &mut Vec<Successors>, edge: Edge) -> Result<(), Memory>
    requires there { edge.src < vec_len rows.old }
    requires fits { count_at rows.old.items edge.src + 1 < 2 ^ 32 }
    ensures held { OnOk result ((u v : ℕ)
        → has_at rows.new.items u v ≡
        ((edge.src == u) && (edge.dst == v) || has_at rows.old.items u v)) }
    ensures counts { OnOk result ((u : ℕ)
        → count_at rows.new.items u ≡ one_if (edge.src == u) + count_at rows.old.items u) }
    ensures kept { OnErr result
        ((u v : ℕ) → has_at rows.new.items u v ≡ has_at rows.old.items u v) }
    ensures same_counts { OnErr result
        ((u : ℕ) → count_at rows.new.items u ≡ count_at rows.old.items u) }
{
    let row = &mut rows[edge.src as usize];
    row.put(edge.dst)?;
    Ok(())
}

// Counts an edge into a vertex.
fn add_in(counts: &mut Vec<u32>, vertex: u32)
    requires there { vertex < vec_len counts.old }
    requires fits { slice_index_or counts.old.items vertex 0 + 1 < 2 ^ 32 }
    ensures { (v : ℕ) → slice_index_or counts.new.items v 0
        ≡ one_if (vertex == v) + slice_index_or counts.old.items v 0 }
{
    counts[vertex as usize] += 1;
}

impl EdgeSet {
    /// No edge.
    pub fn new(alloc: Global) -> EdgeSet
        ensures { result ≡ finite.empty }
    {
        EdgeSet {
            edges: Vec::new(alloc),
            rows: Vec::new(alloc),
            in_degrees: Vec::new(alloc),
        }
    }

    /// The number of edges.
    pub fn len(&self) -> usize
        ensures { result ≡ length (edges (edges_alone self.now)) }
    {
        self.edges.len()
    }

    /// The number of edges out of a vertex.
    pub fn out_degree(&self, vertex: u32) -> u32
        ensures { result ≡ outdeg (edges_alone self.now) vertex }
    {
        match self.rows.get(vertex as usize) {
            Some(row) => row.count,
            None => 0,
        }
    }

    /// The number of edges into a vertex.
    pub fn in_degree(&self, vertex: u32) -> u32
        ensures { result ≡ indeg (edges_alone self.now) vertex }
    {
        match self.in_degrees.get(vertex as usize) {
            Some(count) => *count,
            None => 0,
        }
    }

    /// Whether there is an edge with these ends.
    pub fn contains(&self, src: u32, dst: u32) -> bool
        ensures { result ≡ is_some (finite.get self.now (src, dst)) }
    {
        match self.rows.get(src as usize) {
            Some(row) => row.contains(dst),
            None => false,
        }
    }

    /// Puts the edge in unless one with its ends is there, and answers whether it did. After
    /// `Memory` the edges are the same.
    pub fn put(&mut self, edge: Edge) -> Result<bool, Memory>
        requires room { length (edges (edges_alone self.old)) + 1 < 2 ^ 32 }
        ensures fresh { IfOk result (λ fresh. fresh
            ≡ is_none (finite.get self.old (edge.src, edge.dst))) }
        ensures put { IfOk result (λ fresh. OnTrue fresh
            (self.new ≡ finite.insert self.old (edge.src, edge.dst) edge.weight)) }
        ensures kept { IfOk result (λ fresh. OnFalse fresh (self.new ≡ self.old)) }
        ensures err { OnErr result (self.new ≡ self.old) }
    {
        if self.contains(edge.src, edge.dst) {
            return Ok(false);
        }
        cover_rows(&mut self.rows, edge.src)?;
        cover_counts(&mut self.in_degrees, edge.dst)?;
        self.edges.reserve(1)?;
        add_out(&mut self.rows, edge)?;
        self.edges.push(edge)?;
        add_in(&mut self.in_degrees, edge.dst);
        Ok(true)
    }

    /// The edges as a list. Takes no memory.
    pub fn into_edges(self) -> EdgeList
        ensures edges { finite.from_entries (map_edges entry result) ≡ self }
        ensures apart { AreApart result }
    {
        let EdgeSet { edges, .. } = self;
        EdgeList::from_vec(edges)
    }
}
