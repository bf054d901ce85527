// Graphs of a few edges.
ghost use Rattle.std.specs.Prelude.{◌≡◌, ◌≤◌, None, length, IfOk};
ghost use Rattle.bolt_base.specs.Graph.{IsGood};

use adjacency::{EditRefusal, Graph};
use bolt_base::{AttrList, Edge, EdgeList, Edit, GraphData};
use range_check::Accepted;
use std::alloc::Global;

pub fn add(src: u32, dst: u32) -> Edit {
    Edit::Add(Edge {
        src,
        dst,
        weight: 1,
    })
}

pub fn vertex(vertex: u32) -> Edit {
    Edit::Attr { vertex, attr: 0 }
}

// The graph that edits make of nothing.
pub fn graph_of(alloc: Global, accepted: &Accepted, edits: &[Edit]) -> Result<Graph, EditRefusal>
    requires few { length edits.now ≤ 1000000 }
    ensures good { IfOk result (λ graph. IsGood accepted.now.limits graph.now) }
    ensures limits { IfOk result (λ graph. graph.limits ≡ accepted.now.limits) }
    ensures idle { IfOk result (λ graph. graph.before ≡ None) }
{
    let limits = accepted.program().entries().limits;
    let plain = GraphData::new(AttrList::new(alloc), EdgeList::new(alloc));
    let mut graph = Graph::new(alloc, &plain, &limits)?;
    let change = graph.apply(alloc, edits)?;
    graph.keep(change);
    let _limits = graph.limits();
    Ok(graph)
}
