// The row that an iteration leads to.
ghost use Rattle.std.specs.Prelude.{◌≡◌, ◌-◌, IfOk};
ghost use Rattle.core_model.specs.Iterations.{next_aggs, next_row};
ghost use Rattle.run_model.specs.Program.{is_sum};
ghost use Rattle.run_model.specs.Rows.{row};
ghost use Rattle.core_rows.specs.Settling.{CanSettle, given_of, work_of};

use crate::after::{gathered_aggregates, last_values, row_of};
use crate::entries::EntryRow;
use crate::words::summed_aggregates;
use adjacency::Metered;
use bolt_base::{Choice, Lanes, Memory, VisitMeter};
use std::alloc::Global;
use vertex_expr::{Combine, Program};

// Whether contributions are added.
fn is_sum(combine: Combine) -> bool
    ensures { result ≡ is_sum combine }
{
    match combine {
        Combine::Sum => true,
        Combine::Min { .. } | Combine::Max { .. } => false,
    }
}

// The aggregates of an iteration: from the words, or else by reading the edges.
fn next_aggregates<A: Metered<VisitMeter>>(
    alloc: Global,
    program: &Program,
    choice: Choice,
    old: &A,
    new: &A,
    kept: &[EntryRow],
    rows: &[EntryRow],
    iteration: u32,
    words: &[u64],
    vals: &[Lanes],
) -> Result<Vec<Lanes>, Memory>
    requires ready { CanSettle program.now choice (A.plain old.now) kept.now
        (work_of (A.plain new.now) iteration rows.now words.now) }
    requires vals { vals.now ≡ row program.now (A.plain new.now) (iteration - 1) }
    ensures { let g = A.plain old.now in
        IfOk result (λ aggs. aggs.items
        ≡ next_aggs (given_of program.now choice g) g kept.now
        (work_of (A.plain new.now) iteration rows.now words.now)) }
{
    if is_sum(program.entries().combine) {
        return summed_aggregates(
            alloc, program, choice, old, new, kept, rows, iteration, words,
        );
    }
    gathered_aggregates(alloc, program, new, vals)
}

/// The row that an iteration leads to, from the words of its aggregates, from the rows before and
/// from what is kept of the old graph.
pub fn next_row<A: Metered<VisitMeter>>(
    alloc: Global,
    program: &Program,
    choice: Choice,
    old: &A,
    new: &A,
    kept: &[EntryRow],
    rows: &[EntryRow],
    iteration: u32,
    words: &[u64],
) -> Result<EntryRow, Memory>
    requires ready { CanSettle program.now choice (A.plain old.now) kept.now
        (work_of (A.plain new.now) iteration rows.now words.now) }
    ensures { let g = A.plain old.now in
        IfOk result (λ row. row
        ≡ next_row (given_of program.now choice g) g kept.now
        (work_of (A.plain new.now) iteration rows.now words.now)) }
{
    let vals = last_values(alloc, rows[iteration as usize - 1].as_slice())?;
    let aggs = next_aggregates(
        alloc, program, choice, old, new, kept, rows, iteration, words, &vals,
    )?;
    row_of(alloc, program, new, &aggs, &vals)
}
