// Aggregates of some vertices, by reading the edges into each.
ghost use Rattle.std.specs.Prelude.{◌≡◌, ◌<◌, ◌≤◌, ◌+◌, ◌^◌, map, length, IfOk};
ghost use Rattle.std.specs.List.{All};
ghost use Rattle.std.specs.Thread.{IsSync};
ghost use Rattle.bolt_base.specs.Graph.{vertices};
ghost use Rattle.run_model.specs.Given.{AreGiven, IsBefore};
ghost use Rattle.run_model.specs.Rows.{gathered};
ghost use Rattle.run_model.specs.Visits.{in_visits};
ghost use Rattle.pull_targets.specs.Reading.{CanPull, CanPullPart, part};

use adjacency::{Adjacency, Metered};
use bolt_base::{Lanes, Memory, Meter};
use run_model::Contributions;
use std::alloc::Global;
use std::thread::{Threads, join_mut};
use vertex_expr::Program;
use vertex_steps::{ValueRow, pull};

// A worker has at least this much work where there are several.
const WORK_OF_A_WORKER: u64 = 4096;

// The aggregates of the targets from one place up to, and without, another one.
fn pull_each<M: Meter, A: Metered<M>, V: ValueRow>(
    alloc: Global,
    program: &Program,
    graph: &A,
    row: &V,
    given: &Contributions,
    targets: &[u32],
    from: usize,
    to: usize,
    meter: &mut M,
) -> Result<Vec<Lanes>, Memory>
    requires before { IsBefore program.now (A.plain graph.now) (V.values row.now) }
    requires given { AreGiven program.now (A.plain graph.now) (V.values row.now) given.now }
    requires vertices { All (λ v. v < vertices (A.plain graph.now)) targets.now }
    requires range { from ≤ to }
    requires places { to ≤ length targets.now }
    requires room { M.counted meter.old
        + in_visits (A.plain graph.now) (part targets.now from to) < 2 ^ 64 }
    ensures aggregates { IfOk result (λ aggs.
        aggs.items ≡ map (gathered program.now (A.plain graph.now) (V.values row.now))
        (part targets.now from to)) }
    ensures exact { IfOk result (λ _. M.counted meter.new
        ≡ M.counted meter.old + in_visits (A.plain graph.now) (part targets.now from to)) }
    ensures most { M.counted meter.new
        ≤ M.counted meter.old + in_visits (A.plain graph.now) (part targets.now from to) }
    ensures units { M.held meter.new ≡ M.held meter.old }
{
    let mut aggs = Vec::with_capacity(alloc, to - from)?;
    for k in from..to {
        aggs.push(pull(program, graph, row, given, targets[k], meter))?;
    }
    Ok(aggs)
}

// How much work some vertices are: one for each, and one for each edge into it.
fn work_of<A: Adjacency>(graph: &A, targets: &[u32], from: usize, to: usize) -> u64
    requires vertices { All (λ v. v < vertices (A.plain graph.now)) targets.now }
    requires places { to ≤ length targets.now }
{
    let mut work: u64 = 0;
    for k in from..to {
        work = work.saturating_add(1 + u64::from(graph.in_degree(targets[k])));
    }
    work
}

// Of so much work the share of some workers.
fn share(work: u64, some: u32, workers: u32) -> u64
    requires some { some ≤ workers }
    requires workers { 1 ≤ workers }
    ensures within { result ≤ work }
{
    work / workers as u64 * some as u64
}

// The first place that so much work stands before, or the end.
fn place_after<A: Adjacency>(graph: &A, targets: &[u32], from: usize, to: usize, work: u64) -> usize
    requires vertices { All (λ v. v < vertices (A.plain graph.now)) targets.now }
    requires range { from ≤ to }
    requires places { to ≤ length targets.now }
    ensures low { from ≤ result }
    ensures high { result ≤ to }
{
    let mut before: u64 = 0;
    for k in from..to {
        if work <= before {
            return k;
        }
        before = before.saturating_add(1 + u64::from(graph.in_degree(targets[k])));
    }
    to
}

// Where the part of some workers ends, so that each worker has as much work as the others.
fn part_end<A: Adjacency>(
    graph: &A,
    targets: &[u32],
    from: usize,
    to: usize,
    some: u32,
    workers: u32,
) -> usize
    requires vertices { All (λ v. v < vertices (A.plain graph.now)) targets.now }
    requires range { from ≤ to }
    requires places { to ≤ length targets.now }
    requires some { some ≤ workers }
    requires workers { 1 ≤ workers }
    ensures low { from ≤ result }
    ensures high { result ≤ to }
{
    let work = share(work_of(graph, targets, from, to), some, workers);
    place_after(graph, targets, from, to, work)
}

// How many of so many workers are worth starting for so much work.
fn worth_starting(workers: u32, work: u64) -> u32
    requires workers { 1 ≤ workers }
    ensures some { 1 ≤ result }
    ensures most { result ≤ workers }
{
    let more = work / WORK_OF_A_WORKER;
    if more < u64::from(workers) {
        return (more as u32).max(1);
    }
    workers
}

// The aggregates of the targets from one place up to, and without, another one, each half by a
// half of the workers.
fn half<R: Threads + Sync, M: Meter + Send, A: Metered<M> + Sync, V: ValueRow + Sync>(
    rt: &R,
    alloc: Global,
    program: &Program,
    graph: &A,
    row: &V,
    given: &Contributions,
    targets: &[u32],
    workers: u32,
    from: usize,
    to: usize,
    meter: &mut M,
) -> Result<Vec<Lanes>, Memory>
    requires ready { CanPullPart program.now (A.plain graph.now) (V.values row.now) given.now
        targets.now workers from to (M.counted meter.old) (M.held meter.old) }
    ensures aggregates { IfOk result (λ aggs.
        aggs.items ≡ map (gathered program.now (A.plain graph.now) (V.values row.now))
        (part targets.now from to)) }
    ensures exact { IfOk result (λ _. M.counted meter.new
        ≡ M.counted meter.old + in_visits (A.plain graph.now) (part targets.now from to)) }
    ensures most { M.counted meter.new
        ≤ M.counted meter.old + in_visits (A.plain graph.now) (part targets.now from to) }
    ensures units { M.held meter.new ≡ M.held meter.old }
{
    if workers == 1 {
        return pull_each(alloc, program, graph, row, given, targets, from, to, meter);
    }
    let second_half = workers / 2;
    let first_half = workers - second_half;
    let mid = part_end(graph, targets, from, to, first_half, workers);
    let mut second_meter = meter.split(second_half);
    let (first, second) = join_mut(
        rt,
        &mut || -> Result<Vec<Lanes>, Memory>
            requires { IsSync R.row × IsSync A.row × IsSync V.row
                × CanPullPart program.now (A.plain graph.now) (V.values row.now) given.now
                targets.now first_half from mid (M.counted meter.now) (M.held meter.now) }
            ensures aggregates { IfOk result (λ aggs.
                aggs.items ≡ map (gathered program.entry.now
                (A.plain graph.entry.now) (V.values row.entry.now))
                (part targets.entry.now from mid)) }
            ensures exact { IfOk result (λ _. M.counted meter.exit.now
                ≡ M.counted meter.entry.now + in_visits (A.plain graph.entry.now)
                (part targets.entry.now from mid)) }
            ensures most { M.counted meter.exit.now
                ≤ M.counted meter.entry.now + in_visits (A.plain graph.entry.now)
                (part targets.entry.now from mid) }
            ensures units { M.held meter.exit.now ≡ M.held meter.entry.now }
        {
            half(
                rt, alloc, program, graph, row, given, targets, first_half, from, mid, meter,
            )
        },
        &mut || -> Result<Vec<Lanes>, Memory>
            requires { IsSync R.row × IsSync A.row × IsSync V.row
                × CanPullPart program.now (A.plain graph.now) (V.values row.now) given.now
                targets.now second_half mid to (M.counted second_meter) (M.held second_meter) }
            ensures aggregates { IfOk result (λ aggs.
                aggs.items ≡ map (gathered program.entry.now
                (A.plain graph.entry.now) (V.values row.entry.now))
                (part targets.entry.now mid to)) }
            ensures exact { IfOk result (λ _. M.counted second_meter.exit
                ≡ M.counted second_meter.entry + in_visits (A.plain graph.entry.now)
                (part targets.entry.now mid to)) }
            ensures most { M.counted second_meter.exit
                ≤ M.counted second_meter.entry + in_visits (A.plain graph.entry.now)
                (part targets.entry.now mid to) }
            ensures units { M.held second_meter.exit ≡ M.held second_meter.entry }
        {
            half(
                rt,
                alloc,
                program,
                graph,
                row,
                given,
                targets,
                second_half,
                mid,
                to,
                &mut second_meter,
            )
        },
    );
    meter.join(second_meter);
    let mut aggs = first?;
    aggs.append(&mut second?)?;
    Ok(aggs)
}

/// The aggregates of some vertices, in their order, by so many workers or fewer. It reads each edge
/// into each of them once.
pub fn pull_targets<R: Threads + Sync, M: Meter + Send, A: Metered<M> + Sync, V: ValueRow + Sync>(
    rt: &R,
    alloc: Global,
    program: &Program,
    graph: &A,
    row: &V,
    given: &Contributions,
    targets: &[u32],
    workers: u32,
    meter: &mut M,
) -> Result<Vec<Lanes>, Memory>
    requires ready { CanPull program.now (A.plain graph.now) (V.values row.now) given.now
        targets.now workers (M.counted meter.old) (M.held meter.old) }
    ensures aggregates { IfOk result (λ aggs.
        aggs.items ≡ map (gathered program.now (A.plain graph.now) (V.values row.now))
        targets.now) }
    ensures exact { IfOk result (λ _. M.counted meter.new
        ≡ M.counted meter.old + in_visits (A.plain graph.now) targets.now) }
    ensures most { M.counted meter.new
        ≤ M.counted meter.old + in_visits (A.plain graph.now) targets.now }
    ensures units { M.held meter.new ≡ M.held meter.old }
{
    let all = targets.len();
    let workers = worth_starting(workers, work_of(graph, targets, 0, all));
    half(
        rt, alloc, program, graph, row, given, targets, workers, 0, all, meter,
    )
}
