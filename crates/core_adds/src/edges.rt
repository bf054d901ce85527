// The edges of a graph in their order.
ghost use Rattle.std.specs.Prelude.{◌≡◌, ◌<◌, ◌++◌, slice_get, IfOk, OnOk, Some};
ghost use Rattle.bolt_base.specs.EdgeAt.{edge_at};
ghost use Rattle.bolt_base.specs.Graph.{IsGood, edges, out_edges, outdeg, vertices};

use adjacency::Metered;
use bolt_base::{Edge, Memory, Meter, VisitMeter};
use std::alloc::Global;
use vertex_expr::Program;

// The k-th edge out of a vertex.
fn edge_out<A: Metered<VisitMeter>>(graph: &A, u: u32, k: u32) -> Edge
    requires { k < outdeg (A.plain graph.now) u }
    ensures { slice_get (out_edges (A.plain graph.now) u) k ≡ Some result }
{
    let mut meter = VisitMeter::new();
    let e = graph.out_edge(u, k, &mut meter);
    let _visits = meter.finish();
    e
}

/// The edge of a pair, if there is one.
pub(crate) fn found<A: Metered<VisitMeter>>(graph: &A, u: u32, v: u32) -> Option<Edge>
    ensures { result ≡ edge_at (A.plain graph.now) u v }
{
    let mut meter = VisitMeter::new();
    let e = graph.find(u, v, &mut meter);
    let _visits = meter.finish();
    e
}

// Appends the edges out of a vertex.
fn push_out_edges<A: Metered<VisitMeter>>(
    graph: &A,
    u: u32,
    edges: &mut Vec<Edge>,
) -> Result<(), Memory>
    requires { u < vertices (A.plain graph.now) }
    ensures { OnOk result (edges.new.items ≡ edges.old.items ++ out_edges (A.plain graph.now) u) }
{
    for k in 0..graph.out_degree(u) {
        edges.push(edge_out(graph, u, k))?;
    }
    Ok(())
}

/// All edges, by source and then by destination.
pub(crate) fn edges_of<A: Metered<VisitMeter>>(
    alloc: Global,
    program: &Program,
    graph: &A,
) -> Result<Vec<Edge>, Memory>
    requires { IsGood program.now.limits (A.plain graph.now) }
    ensures { IfOk result (λ es. es.items ≡ edges (A.plain graph.now)) }
{
    let mut es = Vec::new(alloc);
    for u in 0..graph.vertices() {
        push_out_edges(graph, u, &mut es)?;
    }
    Ok(es)
}
