//! The programs that are offered by name.
#![tactic(auto)]

mod naming;
#[cfg(test)]
mod tests;
mod texts;

pub use naming::shipped;
