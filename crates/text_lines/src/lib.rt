//! The lines of a text that is read in pieces, and numbers as words.
#![tactic(auto)]

mod feed;
mod line_feed;
mod numbers;

pub use feed::{FeedError, Line};
pub use line_feed::{BLOCK_BYTES, FrontLine, LineFeed, MOST_LINE_BYTES};
pub use numbers::{vertex_word, whole_word};

#[cfg(test)]
mod tests;
