//! The answer of a program past the cut, from the rows that are kept up to it.
#![tactic(auto)]

mod applying;
mod finishing;
mod kept;
mod pulls;
mod rows;
mod sums;

pub use finishing::finish;
