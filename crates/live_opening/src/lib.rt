//! Opens a live run: its program, its graph, its engine, and then its streams and questions.
#![tactic(auto)]

mod engine;
mod live;
mod names;
mod start;
mod texts;

pub use live::{LiveRun, open_live};
