//! The texts of a live run: the questions that it is asked, and the lines that it writes of its
//! entries and its replies.
#![tactic(auto)]

mod lines;
mod question;
mod question_lines;
mod reader;

pub use lines::{entry_line, last_line, reply_line};
pub use question::{Question, QuestionList};
pub use reader::read_questions;
