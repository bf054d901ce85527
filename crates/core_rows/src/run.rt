// All rows of a run up to an iteration.
ghost use Rattle.std.specs.Prelude.{◌≡◌, IfOk};
ghost use Rattle.bolt_base.specs.Graph.{IsGood};
ghost use Rattle.range_check.specs.Breaks.{IsAccepted};
ghost use Rattle.run_model.specs.Rows.{rows_to};

use crate::after::{last_values, row_after};
use crate::entries::EntryRows;
use crate::first::first_row;
use adjacency::Metered;
use bolt_base::{Memory, VisitMeter};
use std::alloc::Global;
use vertex_expr::Program;

/// The rows of the iterations 0 to `last`, each computed anew from the one before.
pub fn rows_to<A: Metered<VisitMeter>>(
    alloc: Global,
    program: &Program,
    graph: &A,
    last: u32,
) -> Result<EntryRows, Memory>
    requires safe { IsAccepted program.now }
    requires good { IsGood program.now.limits (A.plain graph.now) }
    ensures { IfOk result (λ rows. rows ≡ rows_to program.now (A.plain graph.now) last) }
{
    let mut rows = EntryRows::new(alloc);
    let mut row = first_row(alloc, program, graph)?;
    for _i in 0..last {
        let vals = last_values(alloc, row.as_slice())?;
        let next = row_after(alloc, program, graph, &vals)?;
        rows.push(row)?;
        row = next;
    }
    rows.push(row)?;
    Ok(rows)
}
