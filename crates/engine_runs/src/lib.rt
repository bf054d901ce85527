//! The run of a program over the batches of a stream, made by the engine.
#![tactic(auto)]

mod answers;
mod making;
mod progress;

pub use answers::{EngineAnswer, answer_of};
pub use making::prepare_batch;
pub use progress::{OpenedRun, Progress, TooManyCells, open_run};
