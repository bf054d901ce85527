//! A program that is run once on a graph.
#![tactic(auto)]

mod once;

pub use once::once_text;
