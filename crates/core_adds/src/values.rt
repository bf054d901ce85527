// The values of a graph at an iteration, computed anew.
ghost use Rattle.std.specs.Prelude.{◌≡◌, ◌<◌, IfOk};
ghost use Rattle.bolt_base.specs.Graph.{IsGood, vertices};
ghost use Rattle.range_check.specs.Breaks.{IsAccepted};
ghost use Rattle.run_model.specs.Given.{IsBefore};
ghost use Rattle.run_model.specs.Rows.{applied, at, begun, each_vertex, gathered, row};

use adjacency::{Adjacency, Metered};
use bolt_base::{Lanes, Memory, Meter, VisitMeter};
use run_model::Contributions;
use std::alloc::Global;
use vertex_expr::Program;
use vertex_steps::{LaneRow, first_value, next_value, pull};

// The aggregate of a vertex after a row of values.
fn aggregate<A: Metered<VisitMeter>>(program: &Program, graph: &A, vals: &[Lanes], v: u32) -> Lanes
    requires before { IsBefore program.now (A.plain graph.now) vals.now }
    requires vertex { v < vertices (A.plain graph.now) }
    ensures { result ≡ gathered program.now (A.plain graph.now) vals.now v }
{
    let row = LaneRow { lanes: vals };
    let _reads = graph.in_degree(v);
    let mut meter = VisitMeter::new();
    let totals = pull(program, graph, &row, &Contributions::ByEdge, v, &mut meter);
    let _visits = meter.finish();
    totals
}

// The value of a vertex after a row of values.
fn value_after<A: Metered<VisitMeter>>(
    program: &Program,
    graph: &A,
    vals: &[Lanes],
    v: u32,
) -> Lanes
    requires before { IsBefore program.now (A.plain graph.now) vals.now }
    requires vertex { v < vertices (A.plain graph.now) }
    ensures { result ≡ applied program.now (A.plain graph.now)
        (gathered program.now (A.plain graph.now) vals.now v) (at vals.now v) v }
{
    let agg = aggregate(program, graph, vals, v);
    let before = vals[v as usize];
    next_value(program, graph, &agg, &before, v)
}

// The first values.
fn first_values<A: Adjacency>(
    alloc: Global,
    program: &Program,
    graph: &A,
) -> Result<Vec<Lanes>, Memory>
    requires safe { IsAccepted program.now }
    requires good { IsGood program.now.limits (A.plain graph.now) }
    ensures { IfOk result (λ vals.
        vals.items ≡ each_vertex (A.plain graph.now) (begun program.now (A.plain graph.now))) }
{
    let mut vals = Vec::new(alloc);
    for v in 0..graph.vertices() {
        vals.push(first_value(program, graph, v))?;
    }
    Ok(vals)
}

// The values after a row of values.
fn values_after<A: Metered<VisitMeter>>(
    alloc: Global,
    program: &Program,
    graph: &A,
    vals: &[Lanes],
) -> Result<Vec<Lanes>, Memory>
    requires before { IsBefore program.now (A.plain graph.now) vals.now }
    ensures { IfOk result (λ next.
        next.items ≡ each_vertex (A.plain graph.now) (λ v.
        applied program.now (A.plain graph.now)
        (gathered program.now (A.plain graph.now) vals.now v) (at vals.now v) v)) }
{
    let mut next = Vec::new(alloc);
    for v in 0..graph.vertices() {
        next.push(value_after(program, graph, vals, v))?;
    }
    Ok(next)
}

/// The values of a graph at an iteration.
pub(crate) fn values_at<A: Metered<VisitMeter>>(
    alloc: Global,
    program: &Program,
    graph: &A,
    iteration: u32,
) -> Result<Vec<Lanes>, Memory>
    requires safe { IsAccepted program.now }
    requires good { IsGood program.now.limits (A.plain graph.now) }
    ensures { IfOk result (λ vals. vals.items ≡ row program.now (A.plain graph.now) iteration) }
{
    let mut vals = first_values(alloc, program, graph)?;
    for i in 0..iteration {
        vals = values_after(alloc, program, graph, &vals)?;
    }
    Ok(vals)
}
