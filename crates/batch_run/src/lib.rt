//! What a loop over the batches of a stream has to show, and the end that all commands share.
#![tactic(auto)]

mod batches;
mod opened;

pub use batches::next_batch;
pub use opened::{Opened, put_reply};
