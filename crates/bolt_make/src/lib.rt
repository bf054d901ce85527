//! Graphs and streams of edits that a seed decides, for trials.
#![tactic(auto)]

mod draws;
mod made_graph;
mod making;
mod stream;
#[cfg(test)]
mod tests;

pub use making::{MOST_BATCHES, MOST_CHANGES, MOST_EDITS, MOST_PAIRS, MOST_VERTICES, Made, make};
