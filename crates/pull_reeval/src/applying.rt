// The values of vertices that are evaluated again.
ghost use Rattle.std.specs.Prelude.{◌≡◌, ◌<◌, IfOk, length};
ghost use Rattle.pull_reeval.specs.Applying.{CanApply, applied_at, applied_to};

use adjacency::Adjacency;
use bolt_base::{Lanes, Memory};
use rayon::prelude::*;
use std::alloc::Global;
use std::thread::Threads;
use vertex_expr::Program;
use vertex_steps::{ValueRow, next_value};

// The next value of the vertex at a place.
#[inline]
fn next_value_at<A: Adjacency, V: ValueRow>(
    program: &Program,
    graph: &A,
    row: &V,
    vertices: &[u32],
    aggs: &[Lanes],
    place: usize,
) -> Lanes
    requires ready { CanApply program.now (A.plain graph.now) (V.values row.now) vertices.now
        aggs.now }
    requires place { place < length vertices.now }
    ensures { result ≡ applied_at program.now (A.plain graph.now) (V.values row.now) vertices.now
        aggs.now place }
{
    let v = vertices[place];
    let agg = aggs[place];
    let before = row.value(v);
    next_value(program, graph, &agg, &before, v)
}

// The next values, by one thread.
fn next_values_alone<A: Adjacency, V: ValueRow>(
    alloc: Global,
    program: &Program,
    graph: &A,
    row: &V,
    vertices: &[u32],
    aggs: &[Lanes],
) -> Result<Vec<Lanes>, Memory>
    requires ready { CanApply program.now (A.plain graph.now) (V.values row.now) vertices.now
        aggs.now }
    ensures { IfOk result (λ vals. vals.items
        ≡ applied_to program.now (A.plain graph.now) (V.values row.now) vertices.now aggs.now) }
{
    let mut vals = Vec::with_capacity(alloc, vertices.len())?;
    for place in 0..vertices.len() {
        vals.push(next_value_at(program, graph, row, vertices, aggs, place))?;
    }
    Ok(vals)
}

// The next values, by several threads.
fn next_values_shared<R: Threads + Sync, A: Adjacency + Sync, V: ValueRow + Sync>(
    rt: &R,
    alloc: Global,
    program: &Program,
    graph: &A,
    row: &V,
    vertices: &[u32],
    aggs: &[Lanes],
) -> Result<Vec<Lanes>, Memory>
    requires ready { CanApply program.now (A.plain graph.now) (V.values row.now) vertices.now
        aggs.now }
    ensures { IfOk result (λ vals. vals.items
        ≡ applied_to program.now (A.plain graph.now) (V.values row.now) vertices.now aggs.now) }
{
    let vals: Vec<Lanes> = (0..vertices.len())
        .into_par_iter()
        .map(
            |place: usize| -> Lanes
                requires { CanApply program.now (A.plain graph.now) (V.values row.now) vertices.now
                    aggs.now × (place < length vertices.now) }
                ensures { result ≡ applied_at program.entry.now (A.plain graph.entry.now)
                    (V.values row.entry.now) vertices.entry.now aggs.entry.now place }
            { next_value_at(program, graph, row, vertices, aggs, place) },
        )
        .collect(rt, alloc)?;
    Ok(vals)
}

/// The next values of vertices with these aggregates, after a row of values, by so many workers.
pub fn next_values<R: Threads + Sync, A: Adjacency + Sync, V: ValueRow + Sync>(
    rt: &R,
    alloc: Global,
    program: &Program,
    graph: &A,
    row: &V,
    vertices: &[u32],
    aggs: &[Lanes],
    workers: u32,
) -> Result<Vec<Lanes>, Memory>
    requires ready { CanApply program.now (A.plain graph.now) (V.values row.now) vertices.now
        aggs.now }
    ensures { IfOk result (λ vals. vals.items
        ≡ applied_to program.now (A.plain graph.now) (V.values row.now) vertices.now aggs.now) }
{
    if workers == 1 {
        return next_values_alone(alloc, program, graph, row, vertices, aggs);
    }
    next_values_shared(rt, alloc, program, graph, row, vertices, aggs)
}
