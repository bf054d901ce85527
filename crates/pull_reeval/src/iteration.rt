// One iteration.
ghost use Rattle.std.specs.Prelude.{◌≡◌, ◌<◌, ◌≤◌, ◌+◌, ◌^◌, false, OnOk};
ghost use Rattle.run_model.specs.Program.{is_sum};
ghost use Rattle.run_model.specs.Steps.{step};
ghost use Rattle.run_model.specs.Visits.{step_visits};
ghost use Rattle.refine_rows.specs.Progress.{IsRefinedTo};
ghost use Rattle.pull_reeval.specs.Iterating.{CanIterate};

use crate::aggregates::aggregates_again;
use crate::applying::next_values;
use crate::pulling::{Pulled, pull_again};
use crate::putting::put_all;
use adjacency::{Change, Metered};
use agg_history::{History, Overlay};
use bolt_base::{Memory, Meter};
use refine_rows::{LaidRow, OldGraph, applied_vertices};
use std::alloc::Global;
use std::thread::Threads;
use vertex_expr::Program;

/// Refines the next iteration.
pub fn pull_iteration<O: OldGraph, R: Threads + Sync, A: Metered<M> + Sync, M: Meter + Send>(
    rt: &R,
    alloc: Global,
    program: &Program,
    graph: &A,
    change: &Change,
    history: &History,
    overlay: &mut Overlay,
    i: u32,
    workers: u32,
    meter: &mut M,
) -> Result<(), Memory>
    requires ready { CanIterate program.now O.graph (A.plain graph.now) change.now history.now
        overlay.old i }
    requires kind { is_sum program.now.combine ≡ false }
    requires some { 1 ≤ workers }
    requires held { workers ≤ M.held meter.old }
    requires visits { M.counted meter.old
        + step_visits program.now (step program.now O.graph (A.plain graph.now) i) < 2 ^ 64 }
    ensures refined { OnOk result (IsRefinedTo program.now O.graph (A.plain graph.now) history.now
        overlay.new (i + 1)) }
    ensures exact { OnOk result (M.counted meter.new ≡ M.counted meter.old
        + step_visits program.now (step program.now O.graph (A.plain graph.now) i)) }
    ensures most { M.counted meter.new ≤ M.counted meter.old
        + step_visits program.now (step program.now O.graph (A.plain graph.now) i) }
    ensures held { M.held meter.new ≡ M.held meter.old }
{
    let pulled = pull_again::<O, R, A, M>(
        rt, alloc, program, graph, change, history, overlay, i, workers, meter,
    )?;
    let Pulled {
        changed,
        targets,
        aggs,
    } = pulled;
    let targets = targets.as_slice();
    let applied = applied_vertices::<O, A>(alloc, program, graph, change, i, targets, &changed)?;
    let aggs = aggregates_again::<O, A>(
        alloc, program, graph, history, i, &applied, targets, &aggs,
    )?;
    let row = LaidRow::new::<O, A>(program, graph, history, overlay, i - 1);
    let vals = next_values(rt, alloc, program, graph, &row, &applied, &aggs, workers)?;
    put_all::<O, A>(program, graph, history, overlay, i, &applied, &aggs, &vals)
}
