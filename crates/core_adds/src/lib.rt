//! The additions of an iteration of the core, cut into pieces.
#![tactic(auto)]

mod addition;
mod changes;
mod dirty;
mod edges;
mod gifts;
mod items;
mod iteration;
mod pieces;
mod values;

pub use addition::{Addition, AdditionList, PieceList};
pub use pieces::pieces_left;
