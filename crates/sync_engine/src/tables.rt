// The values of all vertices, by one worker or by several.
ghost use Rattle.std.specs.Prelude.{◌≡◌, IfOk};
ghost use Rattle.bolt_base.specs.Graph.{IsGood};
ghost use Rattle.range_check.specs.Breaks.{IsAccepted};
ghost use Rattle.run_model.specs.Rows.{applied, at, begun, each_vertex, gathered};
ghost use Rattle.run_model.specs.Given.{AreGiven, IsBefore, IsWeightless, source_gives};
ghost use Rattle.sync_engine.specs.Given.{AreShared};

use crate::alone::{first_values_alone, next_values_alone, sources_give_alone};
use crate::shared::{first_values_shared, next_values_shared, sources_give_shared};
use adjacency::Adjacency;
use bolt_base::{Lanes, Memory};
use run_model::{Contributions, is_weightless};
use std::alloc::Global;
use std::thread::Threads;
use vertex_expr::Program;
use vertex_steps::LaneRow;

/// The first values.
pub fn first_values<R: Threads + Sync, A: Adjacency + Sync>(
    rt: &R,
    alloc: Global,
    program: &Program,
    graph: &A,
    workers: u32,
) -> Result<Vec<Lanes>, Memory>
    requires safe { IsAccepted program.now }
    requires good { IsGood program.now.limits (A.plain graph.now) }
    ensures { IfOk result (λ vals.
        vals.items ≡ each_vertex (A.plain graph.now) (begun program.now (A.plain graph.now))) }
{
    if workers == 1 {
        return first_values_alone(alloc, program, graph);
    }
    first_values_shared(rt, alloc, program, graph, workers)
}

/// The values after these aggregates and the values before.
pub fn next_values<R: Threads + Sync, A: Adjacency + Sync>(
    rt: &R,
    alloc: Global,
    program: &Program,
    graph: &A,
    aggs: &[Lanes],
    vals: &[Lanes],
    workers: u32,
) -> Result<Vec<Lanes>, Memory>
    requires before { IsBefore program.now (A.plain graph.now) vals.now }
    requires aggs { aggs.now
        ≡ each_vertex (A.plain graph.now) (gathered program.now (A.plain graph.now) vals.now) }
    ensures { IfOk result (λ next.
        next.items ≡ each_vertex (A.plain graph.now) (λ v.
        applied program.now (A.plain graph.now)
        (gathered program.now (A.plain graph.now) vals.now v) (at vals.now v) v)) }
{
    if workers == 1 {
        return next_values_alone(alloc, program, graph, aggs, vals);
    }
    next_values_shared(rt, alloc, program, graph, aggs, vals, workers)
}

// What the edges out of each vertex give after a row of values, where weights don't matter.
fn sources_give<R: Threads + Sync, A: Adjacency + Sync>(
    rt: &R,
    alloc: Global,
    program: &Program,
    graph: &A,
    vals: &[Lanes],
    workers: u32,
) -> Result<Vec<Lanes>, Memory>
    requires before { IsBefore program.now (A.plain graph.now) vals.now }
    ensures { IfOk result (λ given.
        given.items ≡ each_vertex (A.plain graph.now)
        (source_gives program.now (A.plain graph.now) vals.now)) }
{
    let row = LaneRow { lanes: vals };
    if workers == 1 {
        return sources_give_alone(alloc, program, graph, &row);
    }
    sources_give_shared(rt, alloc, program, graph, &row, workers)
}

/// What the edges give after a row of values, once for each source where weights don't matter.
pub fn contributions<R: Threads + Sync, A: Adjacency + Sync>(
    rt: &R,
    alloc: Global,
    program: &Program,
    graph: &A,
    vals: &[Lanes],
    workers: u32,
) -> Result<Contributions, Memory>
    requires before { IsBefore program.now (A.plain graph.now) vals.now }
    ensures given { IfOk result (λ given.
        AreGiven program.now (A.plain graph.now) vals.now given) }
    ensures shared { IfOk result (λ given. IsWeightless program.now → AreShared given) }
{
    if is_weightless(program) {
        let given = sources_give(rt, alloc, program, graph, vals, workers)?;
        return Ok(Contributions::BySource(given));
    }
    Ok(Contributions::ByEdge)
}
