//! The loop that makes the batches of several streams: it takes them from a journal in the order in
//! which they were entered, makes them by an engine, and publishes the accepted ones.
#![tactic(auto)]

mod engine_loop;
mod entering;
mod kept;
mod making;
mod taking;
mod works;

pub use engine_loop::{make_entries, make_left};
pub use entering::{Entrant, close_all, close_origin, submit};
pub use works::{Worked, Works};
