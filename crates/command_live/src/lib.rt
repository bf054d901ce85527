//! The command `live`: batches of several streams, and questions from other threads meanwhile.
#![tactic(auto)]

mod live;
mod reply;

pub use live::live_command;
