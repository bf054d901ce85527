// Graphs and batches, printed.
ghost use Rattle.std.specs.Prelude.{◌≡◌, ◌<◌, ◌++◌, ◌∷◌, [], length, decimal, OnOk, IfOk};
ghost use Rattle.std.specs.Fmt.{signed_decimal};
ghost use Rattle.std.specs.List.{flat_map, range_with_len};
ghost use Rattle.bolt_base.specs.Graph.{edges};
ghost use Rattle.graph_text.specs.Printed.{two_words, graph_text, batch_text, count_text};
ghost use Rattle.graph_text.specs.Printed.{attr_text, edge_text, edit_text};

use crate::weight_map::WeightMap;
use bolt_base::{Bytes, Edge, EdgeList, Edit, GraphData, Memory};
use std::alloc::Global;

fn put_space(out: &mut Bytes) -> Result<(), Memory>
    ensures { OnOk result (out.new ≡ out.old ++ 32 ∷ []) }
{
    out.push(b' ')?;
    Ok(())
}

fn put_end(out: &mut Bytes) -> Result<(), Memory>
    ensures { OnOk result (out.new ≡ out.old ++ 10 ∷ []) }
{
    out.push(b'\n')?;
    Ok(())
}

// A space, a number and the end of the line.
fn put_last(out: &mut Bytes, whole: i64) -> Result<(), Memory>
    ensures { OnOk result (out.new ≡ out.old ++ (32 ∷ signed_decimal whole ++ 10 ∷ [])) }
{
    put_space(out)?;
    out.push_signed(whole)?;
    put_end(out)?;
    Ok(())
}

// A line of a vertex and a number, or the rest of a line that ends so.
fn put_two(out: &mut Bytes, vertex: u64, whole: i64) -> Result<(), Memory>
    ensures { OnOk result (out.new ≡ out.old ++ two_words (decimal vertex) (signed_decimal whole)) }
{
    out.push_decimal(vertex)?;
    put_last(out, whole)?;
    Ok(())
}

// A line of two vertices, or the rest of a line that ends so.
fn put_ends(out: &mut Bytes, src: u64, dst: u64) -> Result<(), Memory>
    ensures { OnOk result (out.new ≡ out.old ++ two_words (decimal src) (decimal dst)) }
{
    out.push_decimal(src)?;
    put_space(out)?;
    out.push_decimal(dst)?;
    put_end(out)?;
    Ok(())
}

#[tactic(auto, unfolding(crate::specs::Printed::edge_text))]
fn put_edge(out: &mut Bytes, edge: Edge) -> Result<(), Memory>
    ensures { OnOk result (out.new ≡ out.old ++ edge_text edge) }
{
    out.push_decimal(u64::from(edge.src))?;
    put_space(out)?;
    put_two(out, u64::from(edge.dst), edge.weight)?;
    Ok(())
}

#[tactic(auto, unfolding(crate::specs::Printed::attr_text))]
fn put_attr(out: &mut Bytes, attrs: &[i64], vertex: usize) -> Result<(), Memory>
    requires { vertex < length attrs.now }
    ensures { OnOk result (out.new ≡ out.old ++ attr_text attrs.now vertex) }
{
    let attr = attrs[vertex];
    if attr == 0 {
        return Ok(());
    }
    out.extend_from_slice(b"attr ")?;
    put_two(out, vertex as u64, attr)?;
    Ok(())
}

#[tactic(auto, unfolding(crate::specs::Printed::count_text))]
fn put_count(out: &mut Bytes, count: usize) -> Result<(), Memory>
    ensures { OnOk result (out.new ≡ out.old ++ count_text count) }
{
    out.extend_from_slice(b"vertices ")?;
    out.push_decimal(count as u64)?;
    put_end(out)?;
    Ok(())
}

#[tactic(auto, unfolding(crate::specs::Printed::edit_text))]
fn put_edit(out: &mut Bytes, edit: Edit) -> Result<(), Memory>
    ensures { OnOk result (out.new ≡ out.old ++ edit_text edit) }
{
    match edit {
        Edit::Add(edge) => {
            out.extend_from_slice(b"+ ")?;
            put_edge(out, edge)?;
            Ok(())
        }
        Edit::Cut { src, dst } => {
            out.extend_from_slice(b"- ")?;
            put_ends(out, u64::from(src), u64::from(dst))?;
            Ok(())
        }
        Edit::Attr { vertex, attr } => {
            out.extend_from_slice(b"v ")?;
            put_two(out, u64::from(vertex), attr)?;
            Ok(())
        }
    }
}

fn put_attrs(out: &mut Bytes, attrs: &[i64]) -> Result<(), Memory>
    ensures { OnOk result (out.new ≡ out.old
        ++ flat_map (attr_text attrs.now) (range_with_len 0 (length attrs.now))) }
{
    for vertex in 0..attrs.len() {
        put_attr(out, attrs, vertex)?;
    }
    Ok(())
}

fn put_edges(out: &mut Bytes, edges: &[Edge]) -> Result<(), Memory>
    ensures { OnOk result (out.new ≡ out.old ++ flat_map edge_text edges.now) }
{
    for edge in edges {
        put_edge(out, *edge)?;
    }
    Ok(())
}

/// The edges of a graph by source and then by destination.
fn sorted_edges(alloc: Global, graph: &GraphData) -> Result<EdgeList, Memory>
    ensures { IfOk result (λ list. list ≡ edges graph.now) }
{
    let edges = graph.edges();
    let mut map = WeightMap::new(alloc);
    let mut left = edges.len();
    'edges: while left > 0 {
        left -= 1;
        let _fresh = map.put(edges[left])?;
    }
    let sorted = map.into_edges(alloc)?;
    Ok(sorted)
}

/// The printed form of a graph.
pub fn print_graph(alloc: Global, graph: &GraphData) -> Result<Bytes, Memory>
    ensures { IfOk result (λ text. text ≡ graph_text graph.now) }
{
    let sorted = sorted_edges(alloc, graph)?;
    let mut text = Bytes::new(alloc);
    put_count(&mut text, graph.attrs().len())?;
    put_attrs(&mut text, graph.attrs())?;
    put_edges(&mut text, sorted.as_slice())?;
    Ok(text)
}

/// The printed form of a batch.
pub fn print_batch(alloc: Global, edits: &[Edit]) -> Result<Bytes, Memory>
    ensures { IfOk result (λ text. text ≡ batch_text edits.now) }
{
    let mut text = Bytes::new(alloc);
    for edit in edits {
        put_edit(&mut text, *edit)?;
    }
    text.extend_from_slice(b"commit\n")?;
    Ok(text)
}
