//! What one vertex does at an iteration: its first value, what it gives, what it gathers and its
//! next value, over values that are kept anywhere.
#![tactic(auto)]

mod contributions;
mod gathering;
mod pulling;
mod value_row;
mod values;

pub use contributions::{evaluated_at, gather_edge, source_gives};
pub use gathering::gather;
pub use pulling::pull;
pub use value_row::{LaneRow, ValueRow};
pub use values::{first_value, next_value};
