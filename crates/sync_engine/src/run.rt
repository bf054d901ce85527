// All iterations of a run.
ghost use Rattle.std.specs.Prelude.{◌≡◌, ◌<◌, ◌≤◌, ◌+◌, ◌-◌, ◌*◌, ◌^◌, IfOk, length};
ghost use Rattle.std.specs.List.{range_with_len};
ghost use Rattle.bolt_base.specs.Graph.{IsGood, vertices, edges};
ghost use Rattle.range_check.specs.Breaks.{IsAccepted};
ghost use Rattle.run_model.specs.Program.{lanes};
ghost use Rattle.run_model.specs.Rows.{applied, at, each_vertex, gathered, row, rows_to, answer};
ghost use Rattle.run_model.specs.Visits.{opening_visits};
ghost use Rattle.run_model.specs.Given.{IsBefore};

use crate::tables::{contributions, first_values, next_values};
use adjacency::{Adjacency, Metered};
use bolt_base::{Answer, Lanes, Memory, Meter, Rows};
use pull_targets::pull_targets;
use range_check::Accepted;
use std::alloc::Global;
use std::thread::Threads;
use vertex_expr::Program;
use vertex_steps::LaneRow;

/// The rows of a run up to the cut, and the values at the last iteration.
#[derive(Debug, Drop)]
pub struct FirstRun {
    /// The rows from iteration 0 to the cut.
    pub rows: Rows,
    /// The values at the last iteration.
    pub answer: Answer,
}

// The aggregates and the values of an iteration.
#[derive(Drop)]
struct Iteration {
    aggs: Vec<Lanes>,
    vals: Vec<Lanes>,
}

// All vertices, rising.
fn all_vertices<A: Adjacency>(alloc: Global, graph: &A) -> Result<Vec<u32>, Memory>
    ensures { IfOk result (λ all. all.items ≡ range_with_len 0 (vertices (A.plain graph.now))) }
{
    let vertices = graph.vertices();
    let mut all = Vec::with_capacity(alloc, vertices as usize)?;
    for v in 0..vertices {
        all.push(v)?;
    }
    Ok(all)
}

// The aggregates after a row of values. It reads each edge once.
fn aggregates<R: Threads + Sync, M: Meter + Send, A: Metered<M> + Sync>(
    rt: &R,
    alloc: Global,
    program: &Program,
    graph: &A,
    vals: &[Lanes],
    workers: u32,
    meter: &mut M,
) -> Result<Vec<Lanes>, Memory>
    requires before { IsBefore program.now (A.plain graph.now) vals.now }
    requires some { 1 ≤ workers }
    requires parts { workers ≤ M.held meter.old }
    requires room { M.counted meter.old + length (edges (A.plain graph.now)) < 2 ^ 64 }
    ensures aggs { IfOk result (λ aggs. aggs.items
        ≡ each_vertex (A.plain graph.now) (gathered program.now (A.plain graph.now) vals.now)) }
    ensures exact { IfOk result (λ _.
        M.counted meter.new ≡ M.counted meter.old + length (edges (A.plain graph.now))) }
    ensures most { M.counted meter.new ≤ M.counted meter.old + length (edges (A.plain graph.now)) }
    ensures units { M.held meter.new ≡ M.held meter.old }
{
    let given = contributions(rt, alloc, program, graph, vals, workers)?;
    let all = all_vertices(alloc, graph)?;
    let row = LaneRow { lanes: vals };
    pull_targets(
        rt,
        alloc,
        program,
        graph,
        &row,
        &given,
        all.as_slice(),
        workers,
        meter,
    )
}

// The next iteration. It reads each edge once.
fn iterate<R: Threads + Sync, M: Meter + Send, A: Metered<M> + Sync>(
    rt: &R,
    alloc: Global,
    program: &Program,
    graph: &A,
    vals: &[Lanes],
    workers: u32,
    meter: &mut M,
) -> Result<Iteration, Memory>
    requires before { IsBefore program.now (A.plain graph.now) vals.now }
    requires some { 1 ≤ workers }
    requires parts { workers ≤ M.held meter.old }
    requires room { M.counted meter.old + length (edges (A.plain graph.now)) < 2 ^ 64 }
    ensures aggs { IfOk result (λ i.
        i.aggs.items ≡ each_vertex (A.plain graph.now)
        (gathered program.now (A.plain graph.now) vals.now)) }
    ensures vals { IfOk result (λ i.
        i.vals.items ≡ each_vertex (A.plain graph.now) (λ v.
        applied program.now (A.plain graph.now)
        (gathered program.now (A.plain graph.now) vals.now v) (at vals.now v) v)) }
    ensures exact { IfOk result (λ _.
        M.counted meter.new ≡ M.counted meter.old + length (edges (A.plain graph.now))) }
    ensures most { M.counted meter.new ≤ M.counted meter.old + length (edges (A.plain graph.now)) }
    ensures units { M.held meter.new ≡ M.held meter.old }
{
    let aggs = aggregates(rt, alloc, program, graph, vals, workers, meter)?;
    let vals = next_values(rt, alloc, program, graph, &aggs, vals, workers)?;
    Ok(Iteration { aggs, vals })
}

// The rows so far, and the values of the last one.
#[derive(Drop)]
struct Begun {
    rows: Rows,
    vals: Vec<Lanes>,
}

// The row of iteration 0.
fn begin<R: Threads + Sync, A: Adjacency + Sync>(
    rt: &R,
    alloc: Global,
    program: &Program,
    graph: &A,
    workers: u32,
) -> Result<Begun, Memory>
    requires safe { IsAccepted program.now }
    requires good { IsGood program.now.limits (A.plain graph.now) }
    ensures rows { IfOk result (λ b.
        b.rows ≡ record {
          vertices = vertices (A.plain graph.now);
          lanes = lanes program.now;
          rows = rows_to program.now (A.plain graph.now) 0;
        }) }
    ensures vals { IfOk result (λ b. b.vals.items ≡ row program.now (A.plain graph.now) 0) }
{
    let vertices = graph.vertices();
    let lanes = program.entries().ranges.len() as u32;
    let zeros = Lanes::zeros(lanes);
    let aggs = vec![in alloc; zeros; vertices as usize]?;
    let vals = first_values(rt, alloc, program, graph, workers)?;
    let mut rows = Rows::new(alloc, vertices, lanes);
    rows.add_row(&aggs, &vals)?;
    Ok(Begun { rows, vals })
}

// The rows up to the cut. It reads each edge once for each iteration.
fn kept_rows<R: Threads + Sync, M: Meter + Send, A: Metered<M> + Sync>(
    rt: &R,
    alloc: Global,
    program: &Program,
    graph: &A,
    cut: u32,
    workers: u32,
    meter: &mut M,
) -> Result<Begun, Memory>
    requires safe { IsAccepted program.now }
    requires good { IsGood program.now.limits (A.plain graph.now) }
    requires cut { cut ≤ program.now.rounds }
    requires some { 1 ≤ workers }
    requires parts { workers ≤ M.held meter.old }
    requires room { M.counted meter.old + cut * length (edges (A.plain graph.now)) < 2 ^ 64 }
    ensures rows { IfOk result (λ b.
        b.rows ≡ record {
          vertices = vertices (A.plain graph.now);
          lanes = lanes program.now;
          rows = rows_to program.now (A.plain graph.now) cut;
        }) }
    ensures vals { IfOk result (λ b. b.vals.items ≡ row program.now (A.plain graph.now) cut) }
    ensures exact { IfOk result (λ _.
        M.counted meter.new ≡ M.counted meter.old + cut * length (edges (A.plain graph.now))) }
    ensures most { M.counted meter.new ≤ M.counted meter.old + cut * length
        (edges (A.plain graph.now)) }
    ensures units { M.held meter.new ≡ M.held meter.old }
{
    let Begun { mut rows, mut vals } = begin(rt, alloc, program, graph, workers)?;
    for i in 0..cut {
        let next = iterate(rt, alloc, program, graph, &vals, workers, meter)?;
        rows.add_row(&next.aggs, &next.vals)?;
        vals = next.vals;
    }
    Ok(Begun { rows, vals })
}

// The values at the last iteration, from those at the cut. It reads each edge once for each
// iteration past the cut.
fn last_values<R: Threads + Sync, M: Meter + Send, A: Metered<M> + Sync>(
    rt: &R,
    alloc: Global,
    program: &Program,
    graph: &A,
    cut: u32,
    at_cut: Vec<Lanes>,
    workers: u32,
    meter: &mut M,
) -> Result<Vec<Lanes>, Memory>
    requires safe { IsAccepted program.now }
    requires good { IsGood program.now.limits (A.plain graph.now) }
    requires cut { cut ≤ program.now.rounds }
    requires vals { at_cut.items ≡ row program.now (A.plain graph.now) cut }
    requires some { 1 ≤ workers }
    requires parts { workers ≤ M.held meter.old }
    requires room { M.counted meter.old + (program.now.rounds - cut) * length
        (edges (A.plain graph.now)) < 2 ^ 64 }
    ensures answer { IfOk result (λ vals. vals.items ≡ answer program.now (A.plain graph.now)) }
    ensures exact { IfOk result (λ _.
        M.counted meter.new ≡ M.counted meter.old + (program.now.rounds - cut) * length
        (edges (A.plain graph.now))) }
    ensures most { M.counted meter.new ≤ M.counted meter.old + (program.now.rounds - cut) * length
        (edges (A.plain graph.now)) }
    ensures units { M.held meter.new ≡ M.held meter.old }
{
    let mut vals = at_cut;
    for i in cut..program.entries().rounds {
        let next = iterate(rt, alloc, program, graph, &vals, workers, meter)?;
        vals = next.vals;
    }
    Ok(vals)
}

/// The rows of a program on a good graph from iteration 0 to the cut, and the values at its last
/// iteration. It reads each edge once in each round.
pub fn full_run<R: Threads + Sync, M: Meter + Send, A: Metered<M> + Sync>(
    rt: &R,
    alloc: Global,
    accepted: &Accepted,
    graph: &A,
    cut: u32,
    workers: u32,
    meter: &mut M,
) -> Result<FirstRun, Memory>
    requires good { IsGood accepted.now.limits (A.plain graph.now) }
    requires some { 1 ≤ cut }
    requires cut { cut ≤ accepted.now.rounds }
    requires worker { 1 ≤ workers }
    requires workers { workers ≤ 64 }
    requires room { M.counted meter.old + opening_visits accepted.now (A.plain graph.now) < 2 ^ 64 }
    requires parts { 64 ≤ M.held meter.old }
    ensures rows { IfOk result (λ run.
        run.rows ≡ record {
          vertices = vertices (A.plain graph.now);
          lanes = lanes accepted.now;
          rows = rows_to accepted.now (A.plain graph.now) cut;
        }) }
    ensures answer { IfOk result (λ run. run.answer ≡ answer accepted.now (A.plain graph.now)) }
    ensures exact { IfOk result (λ _.
        M.counted meter.new ≡ M.counted meter.old + opening_visits accepted.now
        (A.plain graph.now)) }
    ensures most { M.counted meter.new ≤ M.counted meter.old + opening_visits accepted.now
        (A.plain graph.now) }
    ensures units { M.held meter.new ≡ M.held meter.old }
{
    let program = accepted.program();
    let Begun { rows, vals } = kept_rows(rt, alloc, program, graph, cut, workers, meter)?;
    let last = last_values(rt, alloc, program, graph, cut, vals, workers, meter)?;
    Ok(FirstRun {
        rows,
        answer: Answer::from_vec(last),
    })
}
