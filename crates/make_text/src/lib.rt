//! The texts of the graphs and streams that a seed decides.
#![tactic(auto)]

#[cfg(test)]
mod tests;
mod texts;

pub use texts::{graph_text_of, stream_text_of};
