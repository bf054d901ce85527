//! Program texts both ways: `parse` gives the program of a text or its first refusal, and `print` a
//! program's canonical text.
#![tactic(auto)]

mod canonical;
mod draft;
mod entries;
mod keywords;
mod lines;
mod lists;
mod ranges;
mod text;

pub use canonical::print;
pub use text::parse;
pub use text_words::{Keyword, LangError};
