// The values of all vertices, by one thread.
ghost use Rattle.std.specs.Prelude.{◌≡◌, ◌<◌, IfOk};
ghost use Rattle.bolt_base.specs.Graph.{IsGood, vertices};
ghost use Rattle.range_check.specs.Breaks.{IsAccepted};
ghost use Rattle.run_model.specs.Rows.{applied, at, begun, each_vertex, gathered};
ghost use Rattle.run_model.specs.Given.{IsBefore, source_gives};

use crate::values::next_value_of;
use adjacency::Adjacency;
use bolt_base::{Lanes, Memory};
use std::alloc::Global;
use vertex_expr::Program;
use vertex_steps::{ValueRow, first_value, source_gives};

/// The first values.
pub fn first_values_alone<A: Adjacency>(
    alloc: Global,
    program: &Program,
    graph: &A,
) -> Result<Vec<Lanes>, Memory>
    requires safe { IsAccepted program.now }
    requires good { IsGood program.now.limits (A.plain graph.now) }
    ensures { IfOk result (λ vals.
        vals.items ≡ each_vertex (A.plain graph.now) (begun program.now (A.plain graph.now))) }
{
    let vertices = graph.vertices();
    let mut vals = Vec::with_capacity(alloc, vertices as usize)?;
    for v in 0..vertices {
        vals.push(first_value(program, graph, v))?;
    }
    Ok(vals)
}

/// The values after these aggregates and the values before.
pub fn next_values_alone<A: Adjacency>(
    alloc: Global,
    program: &Program,
    graph: &A,
    aggs: &[Lanes],
    vals: &[Lanes],
) -> Result<Vec<Lanes>, Memory>
    requires before { IsBefore program.now (A.plain graph.now) vals.now }
    requires aggs { aggs.now
        ≡ each_vertex (A.plain graph.now) (gathered program.now (A.plain graph.now) vals.now) }
    ensures { IfOk result (λ next.
        next.items ≡ each_vertex (A.plain graph.now) (λ v.
        applied program.now (A.plain graph.now)
        (gathered program.now (A.plain graph.now) vals.now v) (at vals.now v) v)) }
{
    let vertices = graph.vertices();
    let mut next = Vec::with_capacity(alloc, vertices as usize)?;
    for v in 0..vertices {
        next.push(next_value_of(program, graph, aggs, vals, v))?;
    }
    Ok(next)
}

/// What the edges out of each vertex give after a row of values, where weights don't matter.
pub fn sources_give_alone<A: Adjacency, V: ValueRow>(
    alloc: Global,
    program: &Program,
    graph: &A,
    row: &V,
) -> Result<Vec<Lanes>, Memory>
    requires before { IsBefore program.now (A.plain graph.now) (V.values row.now) }
    ensures { IfOk result (λ given.
        given.items ≡ each_vertex (A.plain graph.now)
        (source_gives program.now (A.plain graph.now) (V.values row.now))) }
{
    let vertices = graph.vertices();
    let mut given = Vec::with_capacity(alloc, vertices as usize)?;
    for u in 0..vertices {
        given.push(source_gives(program, graph, row, u))?;
    }
    Ok(given)
}
