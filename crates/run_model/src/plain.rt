// All rows of a program, by folds over the plain list of edges.
ghost use Rattle.std.specs.Prelude.{◌≡◌, ℕ, IfOk};
ghost use Rattle.bolt_base.specs.Graph.{IsGood};
ghost use Rattle.run_model.specs.Given.{IsBefore};
ghost use Rattle.run_model.specs.Rows.{at, each_vertex, gathered, row, applied, out_degrees};
ghost use Rattle.run_model.specs.Rows.{table_of};
ghost use Rattle.range_check.specs.Breaks.{IsAccepted};

use crate::given::{contributions_after, edge_gives};
use crate::numbers::{empties, evaluated, with_ones};
use bolt_base::{GraphData, Lanes, Memory, Rows};
use range_check::Accepted;
use std::alloc::Global;
use vertex_expr::{Env, Program};

// Each vertex's number of out-edges.
fn out_degrees(alloc: Global, program: &Program, graph: &GraphData) -> Result<Vec<u32>, Memory>
    requires safe { IsAccepted program.now }
    requires good { IsGood program.now.limits graph.now }
    ensures degrees { IfOk result (λ degrees. degrees.items ≡ out_degrees graph.now) }
{
    let mut degrees = vec![in alloc; 0u32; graph.attrs().len()]?;
    let edges = graph.edges();
    for e in edges {
        let so_far = degrees[e.src as usize];
        degrees[e.src as usize] = so_far + 1;
    }
    Ok(degrees)
}

// The aggregates after a row of values.
fn aggregates(
    alloc: Global,
    program: &Program,
    graph: &GraphData,
    degrees: &[u32],
    vals: &[Lanes],
) -> Result<Vec<Lanes>, Memory>
    requires before { IsBefore program.now graph.now vals.now }
    requires degrees { degrees.now ≡ out_degrees graph.now }
    ensures aggregates { let gather = gathered program.now graph.now vals.now in
        IfOk result (λ aggs. aggs.items ≡ each_vertex graph.now gather) }
{
    let given = contributions_after(alloc, program, graph, degrees, vals)?;
    let empty = empties(program);
    let mut aggs = vec![in alloc; empty; graph.attrs().len()]?;
    let edges = graph.edges();
    for e in edges {
        let ones = edge_gives(program, graph, degrees, vals, &given, *e);
        let so_far = aggs[e.dst as usize];
        aggs[e.dst as usize] = with_ones(program, &so_far, &ones);
    }
    Ok(aggs)
}

// The first values.
fn first_values(alloc: Global, program: &Program, graph: &GraphData) -> Result<Vec<Lanes>, Memory>
    requires safe { IsAccepted program.now }
    requires good { IsGood program.now.limits graph.now }
    ensures values { IfOk result (λ vals. vals.items ≡ row program.now graph.now 0) }
{
    let entries = program.entries();
    let zeros = Lanes::zeros(entries.ranges.len() as u32);
    let attrs = graph.attrs();
    let mut vals = Vec::new(alloc);
    for v in 0..attrs.len() {
        let env = Env {
            val: zeros,
            agg: zeros,
            old: zeros,
            outdeg: 0,
            weight: 0,
            attr: attrs[v],
            id: v as u32,
        };
        vals.push(evaluated(program, &entries.init, &env))?;
    }
    Ok(vals)
}

// The values after these aggregates and the values before.
fn next_values(
    alloc: Global,
    program: &Program,
    graph: &GraphData,
    aggs: &[Lanes],
    vals: &[Lanes],
) -> Result<Vec<Lanes>, Memory>
    requires before { IsBefore program.now graph.now vals.now }
    requires aggs { aggs.now ≡ each_vertex graph.now (gathered program.now graph.now vals.now) }
    ensures values { let gather = gathered program.now graph.now vals.now in
        let apply = (λ (v : ℕ). applied program.now graph.now (gather v) (at vals.now v) v) in
        IfOk result (λ next. next.items ≡ each_vertex graph.now apply) }
{
    let entries = program.entries();
    let zeros = Lanes::zeros(entries.ranges.len() as u32);
    let attrs = graph.attrs();
    let mut next = Vec::new(alloc);
    for v in 0..attrs.len() {
        let env = Env {
            val: zeros,
            agg: aggs[v],
            old: vals[v],
            outdeg: 0,
            weight: 0,
            attr: attrs[v],
            id: v as u32,
        };
        next.push(evaluated(program, &entries.apply, &env))?;
    }
    Ok(next)
}

// The rows of a program that is accepted.
fn program_rows(alloc: Global, program: &Program, graph: &GraphData) -> Result<Rows, Memory>
    requires safe { IsAccepted program.now }
    requires good { IsGood program.now.limits graph.now }
    ensures rows { IfOk result (λ rows. rows ≡ table_of program.now graph.now) }
{
    let entries = program.entries();
    let vertices = graph.attrs().len() as u32;
    let lanes = entries.ranges.len() as u32;
    let zeros = Lanes::zeros(lanes);
    let aggs = vec![in alloc; zeros; graph.attrs().len()]?;
    let mut vals = first_values(alloc, program, graph)?;
    let mut rows = Rows::new(alloc, vertices, lanes);
    rows.add_row(&aggs, &vals)?;
    let degrees = out_degrees(alloc, program, graph)?;
    for _round in 0..entries.rounds {
        let aggs = aggregates(alloc, program, graph, &degrees, &vals)?;
        vals = next_values(alloc, program, graph, &aggs, &vals)?;
        rows.add_row(&aggs, &vals)?;
    }
    Ok(rows)
}

/// All rows of a program on a good graph, from iteration 0 to the last one.
pub fn plain_run(alloc: Global, accepted: &Accepted, graph: &GraphData) -> Result<Rows, Memory>
    requires good { IsGood accepted.now.limits graph.now }
    ensures rows { IfOk result (λ rows. rows ≡ table_of accepted.now graph.now) }
{
    program_rows(alloc, accepted.program(), graph)
}
