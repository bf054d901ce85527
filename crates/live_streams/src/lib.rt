//! Reads the files of a live run to their ends: streams of batches, and then questions.
#![tactic(auto)]

mod questions;
mod streams;
mod texts;

pub use questions::{QuestionFiles, read_question_files};
pub use streams::{StreamBatches, StreamFiles, read_stream_files};
pub use texts::{LiveTexts, read_live_texts};
