// The additions of the items of an iteration, up to the cut and past it.
ghost use Rattle.std.specs.Prelude.{◌≡◌, ◌≤◌, IfOk};
ghost use Rattle.bolt_base.specs.Graph.{IsGood, vertices};
ghost use Rattle.range_check.specs.Breaks.{IsAccepted};
ghost use Rattle.core_adds.specs.Sides.{adds_by_item, due_step};

use crate::addition::PieceList;
use crate::items::adds_by_item;
use crate::values::values_at;
use adjacency::Metered;
use bolt_base::{Memory, VisitMeter};
use std::alloc::Global;
use vertex_expr::Program;

/// The additions of each item of an iteration. Past the cut they lead from the values before the
/// last ones to the last ones, on the new graph.
pub(crate) fn adds_due<A: Metered<VisitMeter>>(
    alloc: Global,
    program: &Program,
    cut: u32,
    old: &A,
    new: &A,
    iteration: u32,
) -> Result<PieceList, Memory>
    requires safe { IsAccepted program.now }
    requires old { IsGood program.now.limits (A.plain old.now) }
    requires new { IsGood program.now.limits (A.plain new.now) }
    requires grown { vertices (A.plain old.now) ≤ vertices (A.plain new.now) }
    requires iteration { 1 ≤ iteration }
    requires cut { 1 ≤ cut }
    ensures { IfOk result (λ all. all ≡ adds_by_item program.now
        (due_step program.now cut (A.plain old.now) (A.plain new.now) iteration)) }
{
    let now = values_at(alloc, program, new, iteration - 1)?;
    if cut < iteration {
        let was = values_at(alloc, program, new, iteration - 2)?;
        return adds_by_item(alloc, program, new, new, &was, &now);
    }
    let was = values_at(alloc, program, old, iteration - 1)?;
    adds_by_item(alloc, program, old, new, &was, &now)
}
