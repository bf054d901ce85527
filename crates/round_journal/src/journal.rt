// Entered batches, in the order in which they were entered, and what became of them.
ghost use Rattle.std.specs.Prelude.{◌≡◌, ◌↔◌, ◌+◌, ◌-◌, ◌<◌, ◌≤◌, ◌⊎◌, [], ◌++◌, length, replicate};
ghost use Rattle.std.specs.Prelude.{slice_set, true, false, Some, None, Err};
ghost use Rattle.std.specs.Prelude.{IfOk, OnErr, IfSome, IfNone, IsTrue, MatchResult};
ghost use Rattle.std.specs.Option.{option_copied, option_map};
ghost use Rattle.std.specs.List.{All};
ghost use Rattle.bolt_base.specs.Graph.{Graph};
ghost use Rattle.bolt_base.specs.declared.answer.Choice.{Choice};
ghost use Rattle.vertex_expr.specs.declared.program.ProgramEntries.{ProgramEntries};
ghost use Rattle.round_journal.specs.Book.{Book, IsRound, accepted_count, one_if_accepted};
ghost use Rattle.round_journal.specs.Book.{entry_of, refusal, with_entry};
ghost use Rattle.round_journal.specs.Replays.{Replays, outcome_after};
ghost use Rattle.round_journal.specs.declared.entry.Entered.{Entered};
ghost use Rattle.round_journal.specs.declared.outcome.Outcome.TheVariants.{Memory as NoMemory};
ghost use Rattle.round_journal.specs.declared.journal.TheConstants.{MOST_ORIGINS};
ghost use Rattle.round_journal.specs.declared.journal.EnterError.{EnterError};
ghost use Rattle.round_journal.specs.declared.journal.EnterError.TheVariants.{Memory as Unentered};

use crate::entry::{Entered, JournalEntry};
use crate::outcome::Outcome;
use bolt_base::Memory;
use graph_text::BatchText;
use std::alloc::Global;
use std::marker::Model;

/// How many origins may enter batches.
pub const MOST_ORIGINS: usize = 16;

/// How many entries may be undecided.
pub const MOST_PENDING: usize = 64;

/// Why a batch wasn't entered. It comes back, and nothing changed.
#[derive(Debug, Drop)]
pub enum EnterError {
    /// As many entries are undecided as may be.
    Full {
        batch: BatchText,
        pending: u32,
        limit: u32,
    },
    /// The origin is closed.
    Closed {
        batch: BatchText,
    },
    /// Memory is wanting.
    Memory {
        batch: BatchText,
    },
}

/// Batches that origins entered, and what became of them. Tickets count the entries from 1. The
/// lowest ones are decided, and the accepted ones are the rounds 1, 2, 3 and so on.
#[derive(Drop)]
pub struct Journal {
    entries: Vec<Entered>,
    decided: usize,
    accepted: u64,
    closed: [bool; MOST_ORIGINS],
}

impl Model for Journal {
    ghost use Rattle.std.specs.Prelude.{◌≡◌, length};
    ghost use Rattle.round_journal.specs.Book.{Book, IsShaped, accepted_count};

    ghost Value = { Book };

    ghost view = { λ j. record {
      entries = j.entries.items;
      decided = j.decided;
      closed = j.closed;
    } };

    ghost invariant = { λ j. IsShaped j.entries.items j.decided
        × (j.accepted ≡ accepted_count j.entries.items) × (length j.closed ≡ 16) };
}

// The number of accepted entries after this outcome.
fn rounds_after(accepted: u64, outcome: &Outcome) -> u64
    requires round { IsRound (accepted + 1) (Some outcome.now) }
    ensures { result ≡ accepted + one_if_accepted (Some outcome.now) }
{
    match outcome {
        Outcome::Accepted { round, .. } => *round,
        Outcome::Refused { .. } | Outcome::Memory => accepted,
    }
}

impl Journal {
    /// An empty journal, of which this many origins are open, and those past them closed.
    pub fn new(alloc: Global, origins: u32) -> Result<Journal, Memory>
        requires some { 1 ≤ origins }
        requires few { origins ≤ MOST_ORIGINS }
        ensures { IfOk result (λ j. j ≡ record {
          entries = [];
          decided = 0;
          closed = replicate origins false ++ replicate (MOST_ORIGINS - origins) true;
        }) }
    {
        let entries = Vec::with_capacity(alloc, MOST_PENDING)?;
        let mut closed = [true; MOST_ORIGINS];
        closed[..origins as usize].fill(false);
        Ok(Journal {
            entries,
            decided: 0,
            accepted: 0,
            closed,
        })
    }

    /// The number of entries.
    pub fn len(&self) -> u64
        ensures { result ≡ length self.now.entries }
    {
        self.entries.len() as u64
    }

    /// The number of accepted entries.
    pub fn accepted(&self) -> u64
        ensures { result ≡ accepted_count self.now.entries }
    {
        self.accepted
    }

    /// The lowest undecided ticket, or None exactly where no entry is undecided.
    pub fn next_pending(&self) -> Option<u64>
        ensures some { IfSome result (λ ticket. (ticket ≡ self.now.decided + 1)
            × (ticket ≤ length self.now.entries)) }
        ensures none { IfNone result (self.now.decided ≡ length self.now.entries) }
    {
        if self.decided < self.entries.len() {
            Some(self.decided as u64 + 1)
        } else {
            None
        }
    }

    /// Closes an origin.
    pub fn close(&mut self, origin: u32)
        requires { origin < MOST_ORIGINS }
        ensures { self.new ≡ record self.old { closed = slice_set self.old.closed origin true } }
    {
        self.closed[origin as usize] = true;
    }

    /// Whether every origin is closed and no entry is undecided.
    pub fn finished(&self) -> bool
        ensures { IsTrue result ↔ ((self.now.decided ≡ length self.now.entries)
            × All (λ closed. closed ≡ true) self.now.closed) }
    {
        self.decided == self.entries.len() && self.closed.iter().all(|closed| *closed)
    }

    /// Enters a batch, and answers its ticket. `Closed` comes exactly where the origin is closed,
    /// and `Full` exactly where it is open and 64 entries are undecided. After each error the batch
    /// comes back, and nothing changed.
    pub fn enter(&mut self, origin: u32, batch: BatchText) -> Result<u64, EnterError>
        requires { origin < MOST_ORIGINS }
        ensures refused { IfSome (refusal self.old origin batch) (λ e. result ≡ Err e) }
        ensures entered { IfNone (refusal self.old origin batch) (MatchResult result
            (λ ticket. (ticket ≡ length self.old.entries + 1)
            × (self.new ≡ with_entry self.old origin batch))
            (λ e. e ≡ Unentered batch)) }
        ensures kept { OnErr result (self.new ≡ self.old) }
    {
        if self.closed[origin as usize] {
            return Err(EnterError::Closed { batch });
        }
        if self.entries.len() - self.decided == MOST_PENDING {
            return Err(EnterError::Full {
                batch,
                pending: MOST_PENDING as u32,
                limit: MOST_PENDING as u32,
            });
        }
        let entry = Entered {
            origin,
            batch,
            outcome: None,
        };
        match self.entries.push(entry) {
            Ok(()) => Ok(self.entries.len() as u64),
            Err(failed) => {
                let Entered {
                    origin: _,
                    batch,
                    outcome: _,
                } = failed.value;
                Err(EnterError::Memory { batch })
            }
        }
    }

    /// The entry of a ticket.
    pub fn entry(&self, ticket: u64) -> JournalEntry<'_>
        requires some { 1 ≤ ticket }
        requires there { ticket ≤ length self.now.entries }
        ensures { entry_of self.now ticket ≡ Some (record {
          origin = result.origin;
          batch = result.batch.now;
          outcome = option_copied result.outcome;
        }) }
    {
        let entry = &self.entries[(ticket - 1) as usize];
        JournalEntry {
            origin: entry.origin,
            batch: &entry.batch,
            outcome: entry.outcome.as_ref(),
        }
    }

    /// A batch equal to the one of a ticket.
    pub fn copy(&self, alloc: Global, ticket: u64) -> Result<BatchText, Memory>
        requires some { 1 ≤ ticket }
        requires there { ticket ≤ length self.now.entries }
        ensures { IfOk result (λ copy.
            option_map (λ e. e.batch) (entry_of self.now ticket) ≡ Some copy) }
    {
        self.entries[(ticket - 1) as usize].batch.copy(alloc)
    }

    /// Whether the round of an accepted outcome is the next one.
    pub fn accepts(&self, outcome: &Outcome) -> bool
        ensures { IsTrue result ↔ IsRound (accepted_count self.now.entries + 1) (Some outcome.now) }
    {
        match outcome {
            Outcome::Accepted { round, .. } => *round > 0 && *round - 1 == self.accepted,
            Outcome::Refused { .. } | Outcome::Memory => true,
        }
    }

    /// Decides the lowest undecided entry. A journal that replays still does, where the outcome is
    /// Memory or what becomes of the batch after the accepted entries before it. No memory is
    /// taken.
    pub fn decide(&mut self, ticket: u64, outcome: Outcome)
        requires lowest { ticket ≡ self.old.decided + 1 }
        requires there { ticket ≤ length self.old.entries }
        requires round { IsRound (accepted_count self.old.entries + 1) (Some outcome) }
        ensures decided { (e : Entered) → entry_of self.old ticket ≡ Some e
            → self.new ≡ record self.old {
              decided = ticket;
              entries = slice_set self.old.entries (ticket - 1)
                  (record e { outcome = Some outcome });
            } }
        ensures replays { (p : ProgramEntries) (g : Graph) (c : Choice) (e : Entered)
            → entry_of self.old ticket ≡ Some e
            → (outcome ≡ NoMemory) ⊎ (outcome ≡ outcome_after p g c self.old.entries e.batch)
            → Replays p g c self.old.entries → Replays p g c self.new.entries }
    {
        self.accepted = rounds_after(self.accepted, &outcome);
        let entry = &mut self.entries[self.decided];
        entry.outcome = Some(outcome);
        self.decided += 1;
    }
}
