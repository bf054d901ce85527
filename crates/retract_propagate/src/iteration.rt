// One iteration of a refinement of sums.
ghost use Rattle.std.specs.Prelude.{◌≡◌, ◌≤◌, ◌<◌, ◌+◌, ◌^◌, ◌++◌, OnOk};
ghost use Rattle.agg_words.specs.Known.{IsClear};
ghost use Rattle.vertex_expr.specs.declared.program.Combine.TheVariants.{Sum as SumIs};
ghost use Rattle.run_model.specs.Steps.{step};
ghost use Rattle.run_model.specs.Visits.{step_visits};
ghost use Rattle.edge_map.specs.Ready.{WordsReady};
ghost use Rattle.sum_steps.specs.Taken.{iteration_amounts};
ghost use Rattle.refine_rows.specs.Over.{IsChangeOver};
ghost use Rattle.refine_rows.specs.Progress.{IsRefinedTo};

use crate::applying::apply_targets;
use adjacency::{Change, Metered};
use agg_history::{History, Overlay};
use agg_words::{AggSeat, AggWords};
use bolt_base::{Gate, Memory, Meter};
use edge_map::spread;
use range_check::Accepted;
use refine_rows::{OldGraph, changed_vertices};
use refine_tasks::tasks_of;
use std::alloc::Global;
use std::thread::Threads;

/// Refines one iteration: adds to the words what its changed edges and dirty vertices contribute
/// otherwise than before, and takes it from them for its targets. The words are clear after either
/// answer.
pub(crate) fn refine_iteration<
    O: OldGraph,
    R: Threads + Sync,
    A: Metered<M> + Sync,
    T: Gate + Sync,
    M: Meter + Send,
>(
    rt: &R,
    alloc: Global,
    accepted: &Accepted,
    graph: &A,
    change: &Change,
    history: &History,
    overlay: &mut Overlay,
    words: &AggWords,
    seat: &mut AggSeat,
    workers: u32,
    gate: &T,
    meter: &mut M,
    i: u32,
) -> Result<(), Memory>
    requires change { IsChangeOver accepted.now O.graph (A.plain graph.now) change.now }
    requires refined { IsRefinedTo accepted.now O.graph (A.plain graph.now) history.now
        overlay.old i }
    requires iteration { (1 ≤ i) × (i ≤ history.now.cut) }
    requires sum { accepted.now.combine ≡ SumIs }
    requires table { seat.old.table ≡ words.now.table }
    requires words { WordsReady accepted.now (A.plain graph.now) workers words.now.layout
        seat.old.view }
    requires held { 64 ≤ M.held meter.old }
    requires visits { M.counted meter.old + step_visits accepted.now
        (step accepted.now O.graph (A.plain graph.now) i) < 2 ^ 64 }
    ensures refined { OnOk result (IsRefinedTo accepted.now O.graph (A.plain graph.now)
        history.now overlay.new (i + 1)) }
    ensures amounts { OnOk result (seat.new.view.amounts ≡ seat.old.view.amounts
        ++ iteration_amounts accepted.now (step accepted.now O.graph (A.plain graph.now) i)) }
    ensures exact { OnOk result (M.counted meter.new ≡ M.counted meter.old + step_visits
        accepted.now (step accepted.now O.graph (A.plain graph.now) i)) }
    ensures most { M.counted meter.new ≤ M.counted meter.old + step_visits accepted.now
        (step accepted.now O.graph (A.plain graph.now) i) }
    ensures held { M.held meter.new ≡ M.held meter.old }
    ensures table { seat.new.table ≡ seat.old.table }
    ensures clear { IsClear words.now.layout seat.new.view }
{
    let program = accepted.program();
    let changed = changed_vertices::<O, A>(alloc, program, graph, history, overlay, i)?;
    let tasks = tasks_of::<O, A>(alloc, program, graph, change, history, overlay, i, &changed)?;
    let targets = spread(
        rt, alloc, graph, accepted, &tasks, words, seat, workers, gate, meter,
    )?;
    apply_targets::<O, A>(
        alloc,
        program,
        graph,
        change,
        history,
        overlay,
        words,
        seat,
        i,
        targets.as_slice(),
        &changed,
    )?;
    Ok(())
}
