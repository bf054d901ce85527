//! The words of a command line.
#![tactic(auto)]

mod command;
mod lines;
mod numbers;
mod options;
mod words;

pub use command::{Command, MakeForm, ProgramWord, RunOptions, WordsRefusal};
pub use lines::read_words;
