//! The questions of a live run, asked at the desks of a board.
#![tactic(auto)]

mod asking;
mod last;

pub use asking::{Asked, ask_all};
pub use last::last_replies;
