//! The rows of the core: a run from scratch, the row that an iteration leads to, what is kept of
//! rows, and what a round costs and changes.
#![tactic(auto)]

mod after;
mod changes;
mod entries;
mod first;
mod kept;
mod logs;
mod questions;
mod run;
mod settle;
mod words;

pub use after::last_values;
pub use changes::changes_between;
pub use entries::{EntryRow, EntryRows};
pub use first::first_row;
pub use kept::{kept_count, stored_entries};
pub use logs::shown;
pub use questions::meaning;
pub use run::rows_to;
pub use settle::next_row;
