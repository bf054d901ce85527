// The answer that a log shows.
ghost use Rattle.std.specs.Prelude.{◌≡◌, IfOk, OnOk, length, map};
ghost use Rattle.run_model.specs.Logs.{shown, with_change, with_changes};
ghost use Rattle.board.specs.Log.{round_of};

use board::RoundNote;
use bolt_base::{AnswerChange, Lanes, Memory};
use std::alloc::Global;

// Puts a change into an answer.
fn put_change(values: &mut Vec<Lanes>, change: &AnswerChange) -> Result<(), Memory>
    ensures { OnOk result (values.new.items ≡ with_change values.old.items change.now) }
{
    let place = change.vertex as usize;
    if place == values.len() {
        values.push(change.value)?;
    } else if place < values.len() {
        values[place] = change.value;
    }
    Ok(())
}

// Puts changes into an answer.
fn put_changes(values: &mut Vec<Lanes>, changes: &[AnswerChange]) -> Result<(), Memory>
    ensures { OnOk result (values.new.items ≡ with_changes values.old.items changes.now) }
{
    for change in changes {
        put_change(values, change)?;
    }
    Ok(())
}

/// The answer that all rounds of a log show.
pub fn shown(alloc: Global, start: &[Lanes], log: &[RoundNote]) -> Result<Vec<Lanes>, Memory>
    ensures { let rounds = map round_of log.now in
        IfOk result (λ values. values.items ≡ shown start.now rounds (length rounds)) }
{
    let mut values = Vec::from_slice(alloc, start)?;
    for note in log {
        put_changes(&mut values, note.changes.as_slice())?;
    }
    Ok(values)
}
