//! Entered batches and what became of them, and a lock round them.
#![tactic(auto)]

mod door;
mod entry;
mod journal;
mod outcome;

pub use door::Door;
pub use entry::JournalEntry;
pub use journal::{EnterError, Journal, MOST_ORIGINS, MOST_PENDING};
pub use outcome::Outcome;
