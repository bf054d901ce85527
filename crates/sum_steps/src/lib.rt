//! What the iterations of a sum program take from the words of the aggregates.
#![tactic(auto)]

mod laws;
mod taking;

pub use laws::{spread_leaves_targets, taken_sums_are_new};
pub use taking::{clear_targets, take_target, wipe_marks};
