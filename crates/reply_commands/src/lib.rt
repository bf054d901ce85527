//! The commands that reply at once: what is said of a program, and what is made of a seed.
#![tactic(auto)]

mod check;
mod make;

pub use check::check_command;
pub use make::make_command;
