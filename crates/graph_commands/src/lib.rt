//! The commands `run` and `once`.
#![tactic(auto)]

mod once;
mod run;

pub use once::once_command;
pub use run::run_command;
