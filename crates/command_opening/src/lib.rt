//! Reads and judges what a command names before its stream: its program and its graph.
#![tactic(auto)]

mod both;
mod graph;
mod program;
mod words;

pub use both::read_both;
pub use graph::read_graph;
pub use program::{program_or_reply, read_program};
pub use words::word_at;
