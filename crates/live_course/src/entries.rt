// The lines of entries, and how many of them were accepted and refused.
ghost use Rattle.std.specs.Prelude.{◌≡◌, ◌+◌, ◌++◌, ◌≤◌, length, OnOk};
ghost use Rattle.std.specs.List.{All};
ghost use Rattle.live_text.specs.Lines.{IsDecided};
ghost use Rattle.live_course.specs.Lines.{entry_lines};
ghost use Rattle.live_course.specs.Made.{accepted_count as accepted_count_of};
ghost use Rattle.live_course.specs.Made.{refused_count as refused_count_of};
ghost use Rattle.live_course.specs.Made.{one_if_accepted as one_if_accepted_of};
ghost use Rattle.live_course.specs.Made.{one_if_refused as one_if_refused_of};

use crate::made::MadeEntry;
use bolt_base::{Bytes, Memory};
use live_text::entry_line;
use round_journal::Outcome;
use std::alloc::Global;

/// Appends a line for each entry.
pub(crate) fn push_entries(alloc: Global, out: &mut Bytes, made: &[MadeEntry]) -> Result<(), Memory>
    requires { All (λ e. IsDecided e.outcome) made.now }
    ensures { OnOk result (out.new ≡ out.old ++ entry_lines 1 made.now) }
{
    for (index, entry) in made.iter().enumerate() {
        let ticket = index as u64 + 1;
        let line = entry_line(alloc, ticket, entry.stream, entry.number, &entry.outcome)?;
        out.extend_from_slice(line.as_slice())?;
    }
    Ok(())
}

fn one_if_accepted(outcome: &Outcome) -> u64
    ensures { result ≡ one_if_accepted_of outcome.now }
{
    match outcome {
        Outcome::Accepted { .. } => 1,
        Outcome::Refused { .. } | Outcome::Memory => 0,
    }
}

fn one_if_refused(outcome: &Outcome) -> u64
    ensures { result ≡ one_if_refused_of outcome.now }
{
    match outcome {
        Outcome::Refused { .. } => 1,
        Outcome::Accepted { .. } | Outcome::Memory => 0,
    }
}

/// How many entries were accepted.
#[tactic(auto, using(crate::proofs::Counts::accepted_more, crate::proofs::Counts::accepted_few))]
pub(crate) fn accepted_count(made: &[MadeEntry]) -> u64
    ensures { result ≡ accepted_count_of made.now }
{
    let mut count = 0;
    for entry in made {
        count += one_if_accepted(&entry.outcome);
    }
    count
}

/// How many entries were refused.
#[tactic(auto, using(crate::proofs::Counts::refused_more, crate::proofs::Counts::refused_few))]
pub(crate) fn refused_count(made: &[MadeEntry]) -> u64
    ensures { result ≡ refused_count_of made.now }
{
    let mut count = 0;
    for entry in made {
        count += one_if_refused(&entry.outcome);
    }
    count
}
