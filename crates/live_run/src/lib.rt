//! A live run between its opening and its text: threads enter the batches of several streams, the
//! caller's thread makes them and publishes the answers, and threads ask questions at desks
//! meanwhile.
#![tactic(auto)]

mod asking;
mod lived;
mod opening;
mod running;
mod serving;
mod submitters;
mod turns;

pub use lived::{Lived, live_run};
