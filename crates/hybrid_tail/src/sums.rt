// An iteration past the cut of a program that combines by sum.
ghost use Rattle.std.specs.Prelude.{◌≡◌, ◌+◌, ◌<◌, ◌≤◌, ◌^◌, ◌++◌, ◌-◌, true, IfOk, OnOk};
ghost use Rattle.agg_words.specs.Known.{IsClear};
ghost use Rattle.bolt_base.specs.Graph.{vertices};
ghost use Rattle.run_model.specs.Additions.{tail_adds};
ghost use Rattle.run_model.specs.Program.{is_sum};
ghost use Rattle.run_model.specs.Rows.{aggr};
ghost use Rattle.run_model.specs.Steps.{tail_step};
ghost use Rattle.run_model.specs.Visits.{tail_sum_visits};
ghost use Rattle.edge_map.specs.Ready.{WordsReady};
ghost use Rattle.sum_steps.specs.Laws.{IsSpread};
ghost use Rattle.hybrid_tail.specs.TailAmounts.{tail_takes};
ghost use Rattle.hybrid_tail.specs.TailStep.{CanGoOn, IsNext};
ghost use Rattle.hybrid_tail.specs.TailTasks.{tail_source, tail_tasks};

use crate::applying::apply_again;
use crate::rows::TailRows;
use adjacency::{Adjacency, Metered};
use agg_words::{AggSeat, AggWords};
use bolt_base::{Gate, Lanes, Memory, Meter};
use edge_map::{Source, TaskEdgeList, TaskSourceList, Tasks, spread};
use range_check::Accepted;
use std::alloc::Global;
use std::thread::Threads;
use sum_steps::{take_target, wipe_marks};
use vertex_expr::Program;

// A vertex whose value changed, as a source of differences.
fn source_of<A: Adjacency>(program: &Program, graph: &A, i: u32, rows: &TailRows, u: u32) -> Source
    requires go_on { CanGoOn program.now (A.plain graph.now) i }
    requires rows { IsNext program.now (A.plain graph.now) i rows.now }
    requires vertex { u < vertices (A.plain graph.now) }
    ensures { result ≡ tail_source program.now (A.plain graph.now) i u }
{
    let degree = graph.out_degree(u);
    let attr = graph.attr(u);
    Source {
        vertex: u,
        old: rows.last[u as usize],
        new: rows.vals[u as usize],
        old_degree: degree,
        new_degree: degree,
        old_attr: attr,
        new_attr: attr,
        dirty: true,
    }
}

// What the additions of an iteration are made of.
fn tasks_of<A: Adjacency>(
    alloc: Global,
    program: &Program,
    graph: &A,
    i: u32,
    rows: &TailRows,
) -> Result<Tasks, Memory>
    requires go_on { CanGoOn program.now (A.plain graph.now) i }
    requires rows { IsNext program.now (A.plain graph.now) i rows.now }
    ensures { IfOk result (λ tasks. tasks ≡ tail_tasks program.now (A.plain graph.now) i) }
{
    let mut sources = Vec::with_capacity(alloc, rows.moved.len())?;
    for &u in &rows.moved {
        sources.push(source_of(program, graph, i, rows, u))?;
    }
    Ok(Tasks {
        sources: TaskSourceList::from_vec(sources),
        removed: TaskEdgeList::new(alloc),
        added: TaskEdgeList::new(alloc),
    })
}

// Takes what the words hold for the targets onto their aggregates, and wipes the marks. Takes no
// memory.
fn take_targets<A: Adjacency>(
    program: &Program,
    graph: &A,
    i: u32,
    words: &AggWords,
    seat: &mut AggSeat,
    aggs: &mut [Lanes],
    targets: &[u32],
)
    requires go_on { CanGoOn program.now (A.plain graph.now) i }
    requires sum { is_sum program.now.combine ≡ true }
    requires table { seat.old.table ≡ words.now.table }
    requires units { seat.old.view.units ≡ words.now.layout.units }
    requires spread { IsSpread program.now (tail_step program.now (A.plain graph.now) i)
        words.now.layout targets.now seat.old.view }
    requires aggs { aggs.old ≡ aggr program.now (A.plain graph.now) (i - 1) }
    ensures aggs { aggs.new ≡ aggr program.now (A.plain graph.now) i }
    ensures amounts { seat.new.view.amounts ≡ seat.old.view.amounts
        ++ tail_takes program.now (A.plain graph.now) i }
    ensures table { seat.new.table ≡ seat.old.table }
    ensures units { seat.new.view.units ≡ seat.old.view.units }
    ensures clear { IsClear words.now.layout seat.new.view }
{
    for place in 0..targets.len() {
        let v = targets[place];
        let k = v as usize;
        aggs[k] = take_target(program, words, seat, &aggs[k], v);
    }
    wipe_marks(words, seat, targets);
}

/// An iteration past the cut. The rows are of no further use after `Memory`, and the words are
/// ready again after either answer.
pub fn sum_iteration<R: Threads + Sync, A: Metered<M> + Sync, T: Gate + Sync, M: Meter + Send>(
    rt: &R,
    alloc: Global,
    accepted: &Accepted,
    graph: &A,
    i: u32,
    rows: &mut TailRows,
    words: &AggWords,
    seat: &mut AggSeat,
    workers: u32,
    gate: &T,
    meter: &mut M,
) -> Result<(), Memory>
    requires go_on { CanGoOn accepted.now (A.plain graph.now) i }
    requires sum { is_sum accepted.now.combine ≡ true }
    requires rows { IsNext accepted.now (A.plain graph.now) i rows.old }
    requires table { seat.old.table ≡ words.now.table }
    requires words { WordsReady accepted.now (A.plain graph.now) workers words.now.layout
        seat.old.view }
    requires held { 64 ≤ M.held meter.old }
    requires visits { M.counted meter.old + tail_sum_visits accepted.now (A.plain graph.now) i
        < 2 ^ 64 }
    ensures rows { OnOk result (IsNext accepted.now (A.plain graph.now) (i + 1) rows.new) }
    ensures amounts { OnOk result (seat.new.view.amounts ≡ seat.old.view.amounts
        ++ (tail_adds accepted.now (A.plain graph.now) i
        ++ tail_takes accepted.now (A.plain graph.now) i)) }
    ensures exact { OnOk result (M.counted meter.new
        ≡ M.counted meter.old + tail_sum_visits accepted.now (A.plain graph.now) i) }
    ensures most { M.counted meter.new
        ≤ M.counted meter.old + tail_sum_visits accepted.now (A.plain graph.now) i }
    ensures held { M.held meter.new ≡ M.held meter.old }
    ensures table { seat.new.table ≡ seat.old.table }
    ensures units { seat.new.view.units ≡ seat.old.view.units }
    ensures clear { IsClear words.now.layout seat.new.view }
{
    let program = accepted.program();
    let tasks = tasks_of(alloc, program, graph, i, rows)?;
    let targets = spread(
        rt, alloc, graph, accepted, &tasks, words, seat, workers, gate, meter,
    )?;
    take_targets(
        program,
        graph,
        i,
        words,
        seat,
        rows.aggs.as_mut_slice(),
        targets.as_slice(),
    );
    apply_again(alloc, program, graph, i, rows, targets.as_slice())?;
    Ok(())
}
