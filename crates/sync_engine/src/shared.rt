// The values of all vertices, by several threads.
ghost use Rattle.std.specs.Prelude.{◌≡◌, ◌<◌, IfOk};
ghost use Rattle.bolt_base.specs.Graph.{IsGood, vertices};
ghost use Rattle.range_check.specs.Breaks.{IsAccepted};
ghost use Rattle.run_model.specs.Rows.{applied, at, begun, each_vertex, gathered};
ghost use Rattle.run_model.specs.Given.{IsBefore, source_gives};

use crate::values::next_value_of;
use adjacency::Adjacency;
use bolt_base::{Lanes, Memory};
use rayon::prelude::*;
use std::alloc::Global;
use std::thread::Threads;
use vertex_expr::Program;
use vertex_steps::{ValueRow, first_value, source_gives};

// The least length of a piece of all vertices, where there are no more pieces than workers.
fn least_piece<A: Adjacency>(graph: &A, workers: u32) -> usize {
    let pieces = workers.max(1);
    (graph.vertices() / pieces) as usize
}

/// The first values.
pub fn first_values_shared<R: Threads + Sync, A: Adjacency + Sync>(
    rt: &R,
    alloc: Global,
    program: &Program,
    graph: &A,
    workers: u32,
) -> Result<Vec<Lanes>, Memory>
    requires safe { IsAccepted program.now }
    requires good { IsGood program.now.limits (A.plain graph.now) }
    ensures { IfOk result (λ vals.
        vals.items ≡ each_vertex (A.plain graph.now) (begun program.now (A.plain graph.now))) }
{
    let vals: Vec<Lanes> = (0..graph.vertices())
        .into_par_iter()
        .with_min_len(least_piece(graph, workers))
        .map(
            |v: u32| -> Lanes
                requires { IsAccepted program.now × IsGood program.now.limits (A.plain graph.now)
                    × (v < vertices (A.plain graph.now)) }
                ensures { result ≡ begun program.entry.now (A.plain graph.entry.now) v }
            { first_value(program, graph, v) },
        )
        .collect(rt, alloc)?;
    Ok(vals)
}

/// The values after these aggregates and the values before.
pub fn next_values_shared<R: Threads + Sync, A: Adjacency + Sync>(
    rt: &R,
    alloc: Global,
    program: &Program,
    graph: &A,
    aggs: &[Lanes],
    vals: &[Lanes],
    workers: u32,
) -> Result<Vec<Lanes>, Memory>
    requires before { IsBefore program.now (A.plain graph.now) vals.now }
    requires aggs { aggs.now
        ≡ each_vertex (A.plain graph.now) (gathered program.now (A.plain graph.now) vals.now) }
    ensures { IfOk result (λ next.
        next.items ≡ each_vertex (A.plain graph.now) (λ v.
        applied program.now (A.plain graph.now)
        (gathered program.now (A.plain graph.now) vals.now v) (at vals.now v) v)) }
{
    let next: Vec<Lanes> = (0..graph.vertices())
        .into_par_iter()
        .with_min_len(least_piece(graph, workers))
        .map(
            |v: u32| -> Lanes
                requires { IsBefore program.now (A.plain graph.now) vals.now
                    × (aggs.now ≡ each_vertex (A.plain graph.now)
                    (gathered program.now (A.plain graph.now) vals.now))
                    × (v < vertices (A.plain graph.now)) }
                ensures { result ≡ applied program.entry.now (A.plain graph.entry.now)
                    (gathered program.entry.now (A.plain graph.entry.now) vals.entry.now v)
                    (at vals.entry.now v) v }
            { next_value_of(program, graph, aggs, vals, v) },
        )
        .collect(rt, alloc)?;
    Ok(next)
}

/// What the edges out of each vertex give after a row of values, where weights don't matter.
pub fn sources_give_shared<R: Threads + Sync, A: Adjacency + Sync, V: ValueRow + Sync>(
    rt: &R,
    alloc: Global,
    program: &Program,
    graph: &A,
    row: &V,
    workers: u32,
) -> Result<Vec<Lanes>, Memory>
    requires before { IsBefore program.now (A.plain graph.now) (V.values row.now) }
    ensures { IfOk result (λ given.
        given.items ≡ each_vertex (A.plain graph.now)
        (source_gives program.now (A.plain graph.now) (V.values row.now))) }
{
    let given: Vec<Lanes> = (0..graph.vertices())
        .into_par_iter()
        .with_min_len(least_piece(graph, workers))
        .map(
            |u: u32| -> Lanes
                requires { IsBefore program.now (A.plain graph.now) (V.values row.now)
                    × (u < vertices (A.plain graph.now)) }
                ensures { result ≡ source_gives program.entry.now
                    (A.plain graph.entry.now) (V.values row.entry.now) u }
            { source_gives(program, graph, row, u) },
        )
        .collect(rt, alloc)?;
    Ok(given)
}
