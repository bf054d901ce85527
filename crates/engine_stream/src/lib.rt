//! The loop of the engine's run over the batches of a stream, and the end of the commands that have
//! one.
#![tactic(auto)]

mod batches;
mod finish;
mod stream;

pub use finish::finish_opened;
pub use stream::run_stream;
