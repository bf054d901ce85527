//! The words of the command `live`.
#![tactic(auto)]

mod command;
mod lines;
mod options;
mod places;
mod words;

pub use command::LiveCommand;
pub use lines::{is_live, read_live};
pub use places::Places;
