//! Opens the run of a program on a graph.
#![tactic(auto)]

mod opening;

pub use opening::{choice_of, open_on};
