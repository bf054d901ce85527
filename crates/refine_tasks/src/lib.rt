//! What an iteration of a sum program does: its tasks, from the lists of a change, and what the
//! words hold for the vertices that are applied.
#![tactic(auto)]

mod before;
mod placing;
mod search;
mod sources;
mod taking;
mod tasks;

pub use taking::{next_aggregate, taking_goes_on};
pub use tasks::tasks_of;
