//! Refinement of sums: the rows of a changed graph, from those of the graph before, by the
//! contributions that changed.
#![tactic(auto)]

mod applying;
mod iteration;
mod refining;

pub use refining::refine_sum;
