//! Which vertices gather again at an iteration, and what they gather.
#![tactic(auto)]

mod end_list;
mod ends;
mod laws;
mod pull;

pub use ends::targets_of;
pub use laws::ends_are_targets;
pub use pull::pull_targets;
