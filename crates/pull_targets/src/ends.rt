// Where edges end that changed, or that go out of some vertices.
ghost use Rattle.std.specs.Prelude.{◌≡◌, ◌<◌, ◌≤◌, ◌+◌, ◌^◌, IfOk};
ghost use Rattle.std.specs.List.{All};
ghost use Rattle.bolt_base.specs.Graph.{edges, out_edges, outdeg, vertices};
ghost use Rattle.run_model.specs.Visits.{out_visits};
ghost use Rattle.pull_targets.specs.EndList.{AreFound};
ghost use Rattle.pull_targets.specs.Ends.{AreThere, ends, ends_at};

use crate::end_list::EndList;
use adjacency::{Adjacency, Metered, Near};
use bolt_base::{Edge, Memory, Meter, TargetList};
use std::alloc::Global;

// With more vertices than this for each end, the ends are sorted and no vertex is marked.
const VERTICES_AN_END: u32 = 16;

// Finds the ends of edges.
fn find_ends(found: &mut EndList, edges: &[Edge]) -> Result<(), Memory>
    requires there { All (λ e. e.dst < found.old.vertices) edges.now }
    ensures found { IfOk result (λ _. AreFound found.old (ends_at edges.now) found.new) }
{
    for e in edges {
        found.find(e.dst)?;
    }
    Ok(())
}

// Finds the ends of the edges out of a vertex, and reads each once.
fn find_ends_from<M: Meter, A: Metered<M>>(
    found: &mut EndList,
    graph: &A,
    u: u32,
    meter: &mut M,
) -> Result<(), Memory>
    requires vertices { found.old.vertices ≡ vertices (A.plain graph.now) }
    requires source { u < vertices (A.plain graph.now) }
    requires there { All (λ e. e.dst < vertices (A.plain graph.now)) (edges (A.plain graph.now)) }
    requires room { M.counted meter.old + outdeg (A.plain graph.now) u < 2 ^ 64 }
    ensures found { IfOk result (λ _.
        AreFound found.old (ends_at (out_edges (A.plain graph.now) u)) found.new) }
    ensures exact { IfOk result (λ _.
        M.counted meter.new ≡ M.counted meter.old + outdeg (A.plain graph.now) u) }
    ensures most { M.counted meter.new ≤ M.counted meter.old + outdeg (A.plain graph.now) u }
    ensures units { M.held meter.new ≡ M.held meter.old }
{
    let mut near = Near::new();
    for k in 0..graph.out_degree(u) {
        let e = graph.out_edge_near(u, k, &mut near, meter);
        found.find(e.dst)?;
    }
    Ok(())
}

// How many vertices have a mark where the ends of so many changed edges and of the edges out of the
// sources are found: all, or none where these edges are few beside the vertices.
fn marks_for<A: Adjacency>(graph: &A, changed: usize, sources: &[u32]) -> u32
    requires sources { All (λ u. u < vertices (A.plain graph.now)) sources.now }
    ensures within { result ≤ vertices (A.plain graph.now) }
{
    let mut found = changed as u64;
    for u in sources {
        found = found.saturating_add(u64::from(graph.out_degree(*u)));
    }
    let vertices = graph.vertices();
    if found < u64::from(vertices / VERTICES_AN_END) {
        return 0;
    }
    vertices
}

/// The vertices where a removed or an added edge ends, or an edge of the graph out of one of the
/// sources, each once, rising. It reads each edge out of a source once.
pub fn targets_of<M: Meter, A: Metered<M>>(
    alloc: Global,
    graph: &A,
    removed: &[Edge],
    added: &[Edge],
    sources: &[u32],
    meter: &mut M,
) -> Result<TargetList, Memory>
    requires there { AreThere (A.plain graph.now) removed.now added.now sources.now }
    requires room { M.counted meter.old + out_visits (A.plain graph.now) sources.now < 2 ^ 64 }
    ensures targets { IfOk result (λ targets.
        targets ≡ ends (A.plain graph.now) removed.now added.now sources.now) }
    ensures exact { IfOk result (λ _. M.counted meter.new
        ≡ M.counted meter.old + out_visits (A.plain graph.now) sources.now) }
    ensures most { M.counted meter.new
        ≤ M.counted meter.old + out_visits (A.plain graph.now) sources.now }
    ensures units { M.held meter.new ≡ M.held meter.old }
{
    let changed = removed.len().saturating_add(added.len());
    let marks = marks_for(graph, changed, sources);
    let mut found = EndList::new(alloc, graph.vertices(), marks)?;
    find_ends(&mut found, removed)?;
    find_ends(&mut found, added)?;
    for u in sources {
        find_ends_from(&mut found, graph, *u, meter)?;
    }
    Ok(TargetList::from_vec(found.into_rising()))
}
