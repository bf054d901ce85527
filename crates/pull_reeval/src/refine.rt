// All iterations up to the cut.
ghost use Rattle.std.specs.Prelude.{◌≡◌, ◌<◌, ◌≤◌, ◌+◌, ◌^◌, false, OnOk};
ghost use Rattle.run_model.specs.Program.{is_sum};
ghost use Rattle.run_model.specs.Visits.{refine_visits};
ghost use Rattle.refine_rows.specs.Progress.{IsRefinedTo};
ghost use Rattle.refine_rows.specs.Refining.{CanRefine};

use crate::iteration::pull_iteration;
use adjacency::{Change, Metered};
use agg_history::{History, Overlay};
use bolt_base::{Memory, Meter};
use range_check::Accepted;
use refine_rows::{OldGraph, begin};
use std::alloc::Global;
use std::thread::Threads;

/// Puts the entries of a changed graph over the history of a min or max program, up to the cut, by
/// so many workers. It reads the edges that the iterations read. After `Memory` the overlay is of
/// no further use, and no more edges were read.
pub fn refine_pull<O: OldGraph, R: Threads + Sync, A: Metered<M> + Sync, M: Meter + Send>(
    rt: &R,
    alloc: Global,
    accepted: &Accepted,
    graph: &A,
    change: &Change,
    history: &History,
    overlay: &mut Overlay,
    workers: u32,
    meter: &mut M,
) -> Result<(), Memory>
    requires ready { CanRefine accepted.now O.graph (A.plain graph.now) change.now history.now
        overlay.old }
    requires kind { is_sum accepted.now.combine ≡ false }
    requires workers { (1 ≤ workers) × (workers ≤ 64) }
    requires held { 64 ≤ M.held meter.old }
    requires visits { M.counted meter.old
        + refine_visits accepted.now O.graph (A.plain graph.now) history.now.cut < 2 ^ 64 }
    ensures refined { OnOk result (IsRefinedTo accepted.now O.graph (A.plain graph.now) history.now
        overlay.new (history.now.cut + 1)) }
    ensures exact { OnOk result (M.counted meter.new ≡ M.counted meter.old
        + refine_visits accepted.now O.graph (A.plain graph.now) history.now.cut) }
    ensures most { M.counted meter.new ≤ M.counted meter.old
        + refine_visits accepted.now O.graph (A.plain graph.now) history.now.cut }
    ensures held { M.held meter.new ≡ M.held meter.old }
{
    let program = accepted.program();
    begin::<O, A>(alloc, program, graph, change, history, overlay)?;
    for i in 1..history.cut() + 1 {
        pull_iteration::<O, R, A, M>(
            rt, alloc, program, graph, change, history, overlay, i, workers, meter,
        )?;
    }
    Ok(())
}
