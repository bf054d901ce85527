// What is made of an engine's parts while a batch is prepared.
ghost use Rattle.std.specs.Prelude.{◌≡◌, ◌+◌, ◌<◌, ◌≤◌, ◌^◌, Some, IfOk, OnOk};
ghost use Rattle.agg_words.specs.Known.{IsClear};
ghost use Rattle.edge_map.specs.Ready.{HasRoom};
ghost use Rattle.refine_rows.specs.Over.{AreOver};
ghost use Rattle.refine_rows.specs.Progress.{IsRefinedTo};
ghost use Rattle.refine_rows.specs.Refining.{CanRefine};
ghost use Rattle.run_model.specs.Visits.{refine_visits, tail_visits, visits};
ghost use Rattle.round_engine.specs.EngineOf.{IsAnswerOf, IsChoice, IsNextOf};
ghost use Rattle.round_engine.specs.Parts.{IsStepOf, LeadsAnswerOn, LeadsOn};

use crate::changes::{changes_at_cut, changes_between};
use adjacency::{Adjacency, Change, Metered};
use agg_history::{History, Overlay};
use agg_words::{AggSeat, AggWords};
use bolt_base::{Answer, ChangeList, Choice, Gate, Memory, Meter};
use hybrid_tail::finish;
use pull_reeval::refine_pull;
use range_check::Accepted;
use refine_rows::OldGraph;
use retract_propagate::refine_sum;
use std::alloc::Global;
use std::thread::Threads;
use vertex_expr::Combine;

/// The answer after a batch, where it isn't the last kept row, and what changes in it.
#[derive(Drop)]
pub struct Answered {
    pub answer: Option<Answer>,
    pub changes: ChangeList,
}

/// What a batch puts over the rows, and what becomes of the answer.
#[derive(Drop)]
pub struct Refined {
    pub overlay: Overlay,
    pub last: Answered,
}

// Refines the rows up to the cut, whatever is combined.
fn refine<O: OldGraph, R: Threads + Sync, A: Metered<M> + Sync, T: Gate + Sync, M: Meter + Send>(
    rt: &R,
    alloc: Global,
    accepted: &Accepted,
    graph: &A,
    change: &Change,
    history: &History,
    overlay: &mut Overlay,
    words: &AggWords,
    seat: &mut AggSeat,
    workers: u32,
    gate: &T,
    meter: &mut M,
) -> Result<(), Memory>
    requires ready { CanRefine accepted.now O.graph (A.plain graph.now) change.now history.now
        overlay.old }
    requires workers { (1 ≤ workers) × (workers ≤ 64) }
    requires table { seat.old.table ≡ words.now.table }
    requires room { HasRoom accepted.now (A.plain graph.now) words.now.layout.words
        words.now.layout.bits }
    requires clear { IsClear words.now.layout seat.old.view }
    requires units { workers ≡ words.now.layout.units }
    requires held { 64 ≤ M.held meter.old }
    requires visits { M.counted meter.old
        + refine_visits accepted.now O.graph (A.plain graph.now) history.now.cut < 2 ^ 64 }
    ensures refined { OnOk result (IsRefinedTo accepted.now O.graph (A.plain graph.now)
        history.now overlay.new (history.now.cut + 1)) }
    ensures exact { OnOk result (M.counted meter.new
        ≡ M.counted meter.old
        + refine_visits accepted.now O.graph (A.plain graph.now) history.now.cut) }
    ensures most { M.counted meter.new
        ≤ M.counted meter.old
        + refine_visits accepted.now O.graph (A.plain graph.now) history.now.cut }
    ensures held { M.held meter.new ≡ M.held meter.old }
    ensures table { seat.new.table ≡ seat.old.table }
    ensures clear { IsClear words.now.layout seat.new.view }
{
    if let Combine::Sum = accepted.program().entries().combine {
        refine_sum::<O, R, A, T, M>(
            rt, alloc, accepted, graph, change, history, overlay, words, seat, workers, gate, meter,
        )
    } else {
        refine_pull::<O, R, A, M>(
            rt, alloc, accepted, graph, change, history, overlay, workers, meter,
        )
    }
}

// The answer on the new graph, from rows that are refined up to the cut, and what changes in it.
fn answer_on<O: OldGraph, R: Threads + Sync, A: Metered<M> + Sync, T: Gate + Sync, M: Meter + Send>(
    rt: &R,
    alloc: Global,
    accepted: &Accepted,
    choice: Choice,
    graph: &A,
    history: &History,
    overlay: &Overlay,
    answer: &Option<Answer>,
    words: &AggWords,
    seat: &mut AggSeat,
    gate: &T,
    meter: &mut M,
) -> Result<Answered, Memory>
    requires chosen { IsChoice accepted.now choice }
    requires over { AreOver accepted.now O.graph (A.plain graph.now) }
    requires cut { history.now.cut ≡ choice.cut }
    requires refined { IsRefinedTo accepted.now O.graph (A.plain graph.now) history.now
        overlay.now (history.now.cut + 1) }
    requires answer { IsAnswerOf accepted.now choice O.graph answer.now }
    requires table { seat.old.table ≡ words.now.table }
    requires room { HasRoom accepted.now (A.plain graph.now) words.now.layout.words
        words.now.layout.bits }
    requires clear { IsClear words.now.layout seat.old.view }
    requires units { choice.workers ≡ words.now.layout.units }
    requires held { 64 ≤ M.held meter.old }
    requires visits { M.counted meter.old
        + tail_visits accepted.now (A.plain graph.now) choice.cut < 2 ^ 64 }
    ensures leads { IfOk result
        (LeadsAnswerOn accepted.now choice O.graph (A.plain graph.now)) }
    ensures exact { OnOk result (M.counted meter.new
        ≡ M.counted meter.old + tail_visits accepted.now (A.plain graph.now) choice.cut) }
    ensures most { M.counted meter.new
        ≤ M.counted meter.old + tail_visits accepted.now (A.plain graph.now) choice.cut }
    ensures held { M.held meter.new ≡ M.held meter.old }
    ensures table { seat.new.table ≡ seat.old.table }
    ensures clear { IsClear words.now.layout seat.new.view }
{
    match answer {
        None => {
            let program = accepted.program();
            let changes = changes_at_cut::<O, A>(alloc, program, graph, history, overlay)?;
            Ok(Answered {
                answer: None,
                changes,
            })
        }
        Some(old) => {
            let new = finish(
                rt,
                alloc,
                accepted,
                graph,
                history,
                overlay,
                words,
                seat,
                choice.workers,
                gate,
                meter,
            )?;
            let changes = changes_between(alloc, old.as_slice(), new.as_slice())?;
            Ok(Answered {
                answer: Some(new),
                changes,
            })
        }
    }
}

/// Makes what a batch needs that led to this graph, and takes the memory of its commit.
pub fn refine_parts<
    O: OldGraph,
    R: Threads + Sync,
    A: Metered<M> + Sync,
    T: Gate + Sync,
    M: Meter + Send,
>(
    rt: &R,
    alloc: Global,
    accepted: &Accepted,
    choice: Choice,
    graph: &A,
    change: &Change,
    history: &mut History,
    answer: &Option<Answer>,
    words: &AggWords,
    seat: &mut AggSeat,
    gate: &T,
    meter: &mut M,
) -> Result<Refined, Memory>
    requires step { IsStepOf accepted.now choice O.graph (A.plain graph.now) change.now
        history.old }
    requires answer { IsAnswerOf accepted.now choice O.graph answer.now }
    requires table { seat.old.table ≡ words.now.table }
    requires room { HasRoom accepted.now (A.plain graph.now) words.now.layout.words
        words.now.layout.bits }
    requires clear { IsClear words.now.layout seat.old.view }
    requires units { choice.workers ≡ words.now.layout.units }
    requires held { 64 ≤ M.held meter.old }
    requires visits { M.counted meter.old
        + visits accepted.now O.graph (A.plain graph.now) choice.cut < 2 ^ 64 }
    ensures leads { IfOk result (LeadsOn accepted.now choice O.graph (A.plain graph.now)) }
    ensures next { OnOk result
        (IsNextOf accepted.now choice (Some (A.plain graph.now)) history.new) }
    ensures history { history.new ≡ record history.old { next = history.new.next } }
    ensures exact { OnOk result (M.counted meter.new
        ≡ M.counted meter.old + visits accepted.now O.graph (A.plain graph.now) choice.cut) }
    ensures most { M.counted meter.new
        ≤ M.counted meter.old + visits accepted.now O.graph (A.plain graph.now) choice.cut }
    ensures held { M.held meter.new ≡ M.held meter.old }
    ensures table { seat.new.table ≡ seat.old.table }
    ensures clear { IsClear words.now.layout seat.new.view }
{
    let lanes = accepted.program().entries().ranges.len() as u32;
    let workers = choice.workers;
    let count = graph.vertices();
    let mut overlay = Overlay::new(alloc, change.old_vertices, count, lanes, choice.cut)?;
    refine::<O, R, A, T, M>(
        rt,
        alloc,
        accepted,
        graph,
        change,
        history,
        &mut overlay,
        words,
        seat,
        workers,
        gate,
        meter,
    )?;
    let last = answer_on::<O, R, A, T, M>(
        rt, alloc, accepted, choice, graph, history, &overlay, answer, words, seat, gate, meter,
    )?;
    history.reserve(&overlay)?;
    Ok(Refined { overlay, last })
}
