//! The lines of a program text, their words and tokens, and the numbers and names that words say.
#![tactic(auto)]

mod error;
mod fields;
mod lines;
mod token;
mod tokens;

pub use error::{Keyword, LangError};
pub use fields::{ascii_word, ended_at, name_at, number_at, signed_at, word_at};
pub use lines::{Line, line_at};
pub use token::Token;
pub use tokens::{PlacedToken, next_token};
