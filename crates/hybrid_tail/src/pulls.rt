// An iteration past the cut of a program that takes the least or the greatest.
ghost use Rattle.std.specs.Prelude.{◌≡◌, ℕ, ℤ, ◌+◌, ◌<◌, ◌≤◌, ◌^◌, false, List, map, length, All};
ghost use Rattle.std.specs.Prelude.{OnOk};
ghost use Rattle.run_model.specs.Program.{is_sum};
ghost use Rattle.run_model.specs.Visits.{tail_pull_visits};
ghost use Rattle.hybrid_tail.specs.Setting.{with_each};
ghost use Rattle.hybrid_tail.specs.TailStep.{CanGoOn, IsNext};

use crate::applying::apply_again;
use crate::rows::TailRows;
use adjacency::Metered;
use bolt_base::{Lanes, Memory, Meter};
use pull_targets::{pull_targets, targets_of};
use run_model::Contributions;
use std::alloc::Global;
use std::thread::Threads;
use vertex_expr::Program;
use vertex_steps::LaneRow;

// Sets the aggregates of some vertices to new ones, in the same order.
fn set_aggs(aggs: &mut [Lanes], chosen: &[u32], new: &[Lanes])
    requires long { length new.now ≡ length chosen.now }
    requires below { All (λ v. v < length aggs.old) chosen.now }
    ensures { (f : ℕ → List ℤ) → new.now ≡ map f chosen.now
        → aggs.new ≡ with_each f chosen.now aggs.old }
{
    for place in 0..chosen.len() {
        aggs[chosen[place] as usize] = new[place];
    }
}

/// An iteration past the cut. It reads each edge out of a vertex whose value changed once, and each
/// edge into a target once. The rows are of no further use after `Memory`.
pub fn pull_iteration<R: Threads + Sync, A: Metered<M> + Sync, M: Meter + Send>(
    rt: &R,
    alloc: Global,
    program: &Program,
    graph: &A,
    i: u32,
    rows: &mut TailRows,
    workers: u32,
    meter: &mut M,
) -> Result<(), Memory>
    requires go_on { CanGoOn program.now (A.plain graph.now) i }
    requires pulls { is_sum program.now.combine ≡ false }
    requires rows { IsNext program.now (A.plain graph.now) i rows.old }
    requires some { 1 ≤ workers }
    requires held { workers ≤ M.held meter.old }
    requires visits { M.counted meter.old + tail_pull_visits program.now (A.plain graph.now) i
        < 2 ^ 64 }
    ensures rows { OnOk result (IsNext program.now (A.plain graph.now) (i + 1) rows.new) }
    ensures exact { OnOk result (M.counted meter.new
        ≡ M.counted meter.old + tail_pull_visits program.now (A.plain graph.now) i) }
    ensures most { M.counted meter.new
        ≤ M.counted meter.old + tail_pull_visits program.now (A.plain graph.now) i }
    ensures held { M.held meter.new ≡ M.held meter.old }
{
    let targets = targets_of(alloc, graph, &[], &[], &rows.moved, meter)?;
    let row = LaneRow {
        lanes: rows.vals.as_slice(),
    };
    let given = Contributions::ByEdge;
    let aggs = pull_targets(
        rt,
        alloc,
        program,
        graph,
        &row,
        &given,
        targets.as_slice(),
        workers,
        meter,
    )?;
    set_aggs(rows.aggs.as_mut_slice(), targets.as_slice(), &aggs);
    apply_again(alloc, program, graph, i, rows, targets.as_slice())?;
    Ok(())
}
