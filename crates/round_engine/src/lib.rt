//! A program on a graph that changes by batches: its kept iterations and its answer stay those of a
//! run from scratch on the current graph.
#![tactic(auto)]

mod changes;
mod engine;
mod opening;
mod parts;
mod prepare;
mod prepared;
mod round;

pub use engine::Engine;
pub use opening::{MOST_CELLS, OpenError};
pub use prepare::BatchRefusal;
pub use prepared::Prepared;
pub use round::Round;
