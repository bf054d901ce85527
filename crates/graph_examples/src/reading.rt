// Whether a graph reads as plain lists, by every call that reads it.
ghost use Rattle.std.specs.Prelude.{◌<◌, length};
ghost use Rattle.bolt_base.specs.Graph.{outdeg, indeg};

use crate::plain::{Plain, short};
use adjacency::{Adjacency, Metered, Near};
use bolt_base::{Edge, VisitMeter};

/// The edge of a pair, if it has one.
pub fn found<A: Metered<VisitMeter>>(graph: &A, u: u32, v: u32) -> Option<Edge> {
    let mut meter = VisitMeter::new();
    let edge = graph.find(u, v, &mut meter);
    let _visits = meter.finish();
    edge
}

/// The k-th edge out of a vertex, where both reads agree and each counts.
pub fn out_edge<A: Metered<VisitMeter>>(graph: &A, u: u32, k: u32, near: &mut Near) -> Option<Edge>
    requires { k < outdeg (A.plain graph.now) u }
{
    let mut meter = VisitMeter::new();
    let edge = graph.out_edge(u, k, &mut meter);
    let again = graph.out_edge_near(u, k, near, &mut meter);
    let visits = meter.finish();
    if edge == again && visits == 2 {
        Some(edge)
    } else {
        None
    }
}

// The k-th edge into a vertex, where both reads agree and each counts.
fn in_edge<A: Metered<VisitMeter>>(graph: &A, v: u32, k: u32, near: &mut Near) -> Option<Edge>
    requires { k < indeg (A.plain graph.now) v }
{
    let mut meter = VisitMeter::new();
    let edge = graph.in_edge(v, k, &mut meter);
    let again = graph.in_edge_near(v, k, near, &mut meter);
    let visits = meter.finish();
    if edge == again && visits == 2 {
        Some(edge)
    } else {
        None
    }
}

// Whether the edges out of a vertex rise, are those of the lists, and are found.
fn reads_out<A: Metered<VisitMeter>>(graph: &A, plain: &Plain, u: u32) -> bool
    requires { u < length (A.plain graph.now).attrs }
{
    let mut near = Near::new();
    let mut least = 0u64;
    for k in 0..graph.out_degree(u) {
        let Some(edge) = out_edge(graph, u, k, &mut near) else {
            return false;
        };
        if edge.src != u
            || u64::from(edge.dst) < least
            || plain.weight(u, edge.dst) != Some(edge.weight)
            || found(graph, u, edge.dst) != Some(edge)
        {
            return false;
        }
        least = u64::from(edge.dst).saturating_add(1);
    }
    graph.out_degree(u) == plain.out_degree(u)
}

// Whether the edges into a vertex rise and are those of the lists.
fn reads_in<A: Metered<VisitMeter>>(graph: &A, plain: &Plain, v: u32) -> bool
    requires { v < length (A.plain graph.now).attrs }
{
    let mut near = Near::new();
    let mut least = 0u64;
    for k in 0..graph.in_degree(v) {
        let Some(edge) = in_edge(graph, v, k, &mut near) else {
            return false;
        };
        if edge.dst != v
            || u64::from(edge.src) < least
            || plain.weight(edge.src, v) != Some(edge.weight)
        {
            return false;
        }
        least = u64::from(edge.src).saturating_add(1);
    }
    graph.in_degree(v) == plain.in_degree(v)
}

/// Whether all that is read of a graph is as in the lists.
pub fn reads_as<A: Metered<VisitMeter>>(graph: &A, plain: &Plain) -> bool {
    for u in 0..graph.vertices() {
        if plain.attrs.get(u as usize) != Some(&graph.attr(u))
            || !reads_out(graph, plain, u)
            || !reads_in(graph, plain, u)
            || found(graph, 0, u).map(|edge| edge.weight) != plain.weight(0, u)
        {
            return false;
        }
    }
    graph.vertices() == short(plain.attrs.len()) && graph.edges() == short(plain.edges.len())
}
