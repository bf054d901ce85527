//! Which programs are safe on every graph within their limits: the check by intervals, and the
//! programs that passed it.
#![tactic(auto)]

mod accepted;
mod aggregate;
mod checking;
mod interval;
mod lanes;
mod laws;
mod refusal;
mod scope;
mod walk;

pub use accepted::{Accepted, bounds};
pub use checking::check;
pub use laws::{accepted_are_safe, first_is_first, rows_are_safe};
pub use refusal::RangeRefusal;
