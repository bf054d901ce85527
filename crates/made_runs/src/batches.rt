// Made batches, as a run takes them.
ghost use Rattle.std.specs.Prelude.{◌≡◌, ◌≤◌, length, IfOk};
ghost use Rattle.std.specs.List.{range_with_len};
ghost use Rattle.graph_text.specs.declared.batch_reader.TheConstants.{MOST_EDITS};
ghost use Rattle.command_course.specs.Still.{made_batch};

use bolt_base::{EditList, LineList, Memory};
use graph_text::BatchText;
use std::alloc::Global;

// The numbers of so many lines.
fn line_numbers(alloc: Global, count: u64) -> Result<LineList, Memory>
    requires few { count ≤ MOST_EDITS }
    ensures numbers { IfOk result (λ lines. lines ≡ range_with_len 1 count) }
    ensures count { IfOk result (λ lines. length lines ≡ count) }
{
    let mut lines = LineList::new(alloc);
    for before in 0..count {
        lines.push(before + 1)?;
    }
    Ok(lines)
}

/// The batch of some edits, each on a line of its own.
pub(crate) fn batch_of(alloc: Global, edits: &EditList) -> Result<BatchText, Memory>
    requires few { length edits.now ≤ MOST_EDITS }
    ensures batch { IfOk result (λ batch. batch ≡ made_batch edits.now) }
    ensures paired { IfOk result (λ batch. length batch.lines ≡ length batch.edits) }
    ensures small { IfOk result (λ batch. length batch.edits ≤ MOST_EDITS) }
{
    let lines = line_numbers(alloc, edits.len() as u64)?;
    let edits = edits.copy(alloc)?;
    Ok(BatchText {
        first_line: 1,
        edits,
        lines,
        bad: None,
    })
}
