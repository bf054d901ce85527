// The row after another one, each aggregate gathered anew.
ghost use Rattle.std.specs.Prelude.{◌≡◌, ◌<◌, ℕ, IfOk, length, map};
ghost use Rattle.std.specs.List.{zip};
ghost use Rattle.bolt_base.specs.Graph.{vertices};
ghost use Rattle.run_model.specs.Given.{IsBefore};
ghost use Rattle.run_model.specs.Rows.{applied, at, each_vertex, gathered};
ghost use Rattle.vertex_expr.specs.ProgramBounds.{aggregated};
ghost use Rattle.vertex_expr.specs.Span.{AreIn};

use crate::entries::EntryRow;
use adjacency::Metered;
use bolt_base::{Lanes, Memory, VisitMeter};
use run_model::Contributions;
use std::alloc::Global;
use vertex_expr::Program;
use vertex_steps::{LaneRow, next_value, pull};

/// The values of a row.
pub fn last_values(alloc: Global, row: &[(Lanes, Lanes)]) -> Result<Vec<Lanes>, Memory>
    ensures { IfOk result (λ vals. vals.items ≡ map (λ e. e.1) row.now) }
{
    let mut vals = Vec::new(alloc);
    for entry in row {
        vals.push(entry.1)?;
    }
    Ok(vals)
}

// The aggregate of a vertex, by reading the edges into it.
fn aggregate<A: Metered<VisitMeter>>(program: &Program, graph: &A, vals: &[Lanes], v: u32) -> Lanes
    requires before { IsBefore program.now (A.plain graph.now) vals.now }
    requires vertex { v < vertices (A.plain graph.now) }
    ensures { result ≡ gathered program.now (A.plain graph.now) vals.now v }
{
    let _degree = graph.in_degree(v);
    let row = LaneRow { lanes: vals };
    let mut meter = VisitMeter::new();
    let totals = pull(program, graph, &row, &Contributions::ByEdge, v, &mut meter);
    meter.finish();
    totals
}

/// The aggregates after a row of values, by reading all edges.
pub fn gathered_aggregates<A: Metered<VisitMeter>>(
    alloc: Global,
    program: &Program,
    graph: &A,
    vals: &[Lanes],
) -> Result<Vec<Lanes>, Memory>
    requires before { IsBefore program.now (A.plain graph.now) vals.now }
    ensures { IfOk result (λ aggs. aggs.items
        ≡ each_vertex (A.plain graph.now) (gathered program.now (A.plain graph.now) vals.now)) }
{
    let mut aggs = Vec::new(alloc);
    for v in 0..graph.vertices() {
        aggs.push(aggregate(program, graph, vals, v))?;
    }
    Ok(aggs)
}

/// The row of these aggregates and of the values that they and the values before lead to.
pub fn row_of<A: Metered<VisitMeter>>(
    alloc: Global,
    program: &Program,
    graph: &A,
    aggs: &[Lanes],
    vals: &[Lanes],
) -> Result<EntryRow, Memory>
    requires before { IsBefore program.now (A.plain graph.now) vals.now }
    requires long { length aggs.now ≡ vertices (A.plain graph.now) }
    requires aggs { (v : ℕ) → v < vertices (A.plain graph.now)
        → AreIn (aggregated program.now) (at aggs.now v) }
    ensures { IfOk result (λ row. row
        ≡ zip aggs.now (each_vertex (A.plain graph.now)
        (λ v. applied program.now (A.plain graph.now) (at aggs.now v) (at vals.now v) v))) }
{
    let mut row = Vec::new(alloc);
    for v in 0..graph.vertices() {
        let agg = aggs[v as usize];
        let before = vals[v as usize];
        let value = next_value(program, graph, &agg, &before, v);
        row.push((agg, value))?;
    }
    Ok(EntryRow::from_vec(row))
}

/// The row after another one.
pub fn row_after<A: Metered<VisitMeter>>(
    alloc: Global,
    program: &Program,
    graph: &A,
    vals: &[Lanes],
) -> Result<EntryRow, Memory>
    requires before { IsBefore program.now (A.plain graph.now) vals.now }
    ensures { IfOk result (λ row. row
        ≡ zip (each_vertex (A.plain graph.now)
        (gathered program.now (A.plain graph.now) vals.now))
        (each_vertex (A.plain graph.now) (λ v. applied program.now (A.plain graph.now)
        (gathered program.now (A.plain graph.now) vals.now v) (at vals.now v) v))) }
{
    let aggs = gathered_aggregates(alloc, program, graph, vals)?;
    row_of(alloc, program, graph, &aggs, vals)
}
