//! Judges a program's text, and reads and judges a program's file.
#![tactic(auto)]

mod judging;
mod loading;
mod refusal;

pub use judging::judge;
pub use loading::{MOST_READ, load_program};
pub use refusal::ProgramRefusal;
