// Refinement of sums.
ghost use Rattle.std.specs.Prelude.{◌≡◌, ◌≤◌, ◌<◌, ◌+◌, ◌^◌, ◌++◌, OnOk};
ghost use Rattle.agg_words.specs.Known.{IsClear};
ghost use Rattle.vertex_expr.specs.declared.program.Combine.TheVariants.{Sum as SumIs};
ghost use Rattle.run_model.specs.Visits.{refine_visits};
ghost use Rattle.edge_map.specs.Ready.{WordsReady};
ghost use Rattle.refine_rows.specs.Progress.{IsRefinedTo};
ghost use Rattle.refine_rows.specs.Refining.{CanRefine};
ghost use Rattle.retract_propagate.specs.Refinement.{refine_amounts};

use crate::iteration::refine_iteration;
use adjacency::{Change, Metered};
use agg_history::{History, Overlay};
use agg_words::{AggSeat, AggWords};
use bolt_base::{Gate, Memory, Meter};
use range_check::Accepted;
use refine_rows::{OldGraph, begin};
use std::alloc::Global;
use std::thread::Threads;

/// Puts over a history the rows of a changed graph up to the cut, for a program that combines by
/// sum. In each iteration the words take the additions of its tasks by the workers, and give them
/// back for its targets. The words are clear after either answer; after `Memory` the overlay is of
/// no further use.
pub fn refine_sum<
    O: OldGraph,
    R: Threads + Sync,
    A: Metered<M> + Sync,
    T: Gate + Sync,
    M: Meter + Send,
>(
    rt: &R,
    alloc: Global,
    accepted: &Accepted,
    graph: &A,
    change: &Change,
    history: &History,
    overlay: &mut Overlay,
    words: &AggWords,
    seat: &mut AggSeat,
    workers: u32,
    gate: &T,
    meter: &mut M,
) -> Result<(), Memory>
    requires ready { CanRefine accepted.now O.graph (A.plain graph.now) change.now history.now
        overlay.old }
    requires sum { accepted.now.combine ≡ SumIs }
    requires table { seat.old.table ≡ words.now.table }
    requires words { WordsReady accepted.now (A.plain graph.now) workers words.now.layout
        seat.old.view }
    requires held { 64 ≤ M.held meter.old }
    requires visits { M.counted meter.old + refine_visits accepted.now O.graph
        (A.plain graph.now) history.now.cut < 2 ^ 64 }
    ensures refined { OnOk result (IsRefinedTo accepted.now O.graph (A.plain graph.now)
        history.now overlay.new (history.now.cut + 1)) }
    ensures amounts { OnOk result (seat.new.view.amounts ≡ seat.old.view.amounts
        ++ refine_amounts accepted.now O.graph (A.plain graph.now) history.now.cut) }
    ensures exact { OnOk result (M.counted meter.new ≡ M.counted meter.old
        + refine_visits accepted.now O.graph (A.plain graph.now) history.now.cut) }
    ensures most { M.counted meter.new ≤ M.counted meter.old
        + refine_visits accepted.now O.graph (A.plain graph.now) history.now.cut }
    ensures held { M.held meter.new ≡ M.held meter.old }
    ensures table { seat.new.table ≡ seat.old.table }
    ensures units { seat.new.view.units ≡ seat.old.view.units }
    ensures clear { IsClear words.now.layout seat.new.view }
{
    begin::<O, A>(alloc, accepted.program(), graph, change, history, overlay)?;
    for done in 0..history.cut() {
        refine_iteration::<O, R, A, T, M>(
            rt,
            alloc,
            accepted,
            graph,
            change,
            history,
            overlay,
            words,
            seat,
            workers,
            gate,
            meter,
            done + 1,
        )?;
    }
    Ok(())
}
