//! The core of bolt as a machine over values: its states and its steps, and what holds after every
//! list of steps.
#![tactic(auto)]

mod laws;
mod step;

pub use laws::{core_keeps_its_rules, parts_make_steps, steps_are_answered, words_are_differences};
pub use step::{Effect, Step};
