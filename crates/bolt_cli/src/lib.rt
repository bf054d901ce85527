//! The command: from its words and the files that they name to its text and its status.
#![tactic(auto)]

mod command;
mod live;
mod refuse;

pub use command::{bolt, bolt_still};
