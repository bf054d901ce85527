//! What is made of a seed, as one reply: a graph, a stream, or the run of the shipped program
//! `rank` on both.
#![tactic(auto)]

mod batches;
mod making;
mod program;
mod run;

pub use making::make_reply;
