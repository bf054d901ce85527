//! Graphs and batches of edits as texts.
#![tactic(auto)]

mod bad_line;
mod batch_reader;
mod batch_text;
mod edge_set;
mod graph;
mod graph_draft;
mod graph_lines;
mod printing;
mod stream_lines;
mod successors;
mod weight_map;

pub use bad_line::BadLine;
pub use batch_reader::BatchReader;
pub use batch_text::BatchText;
pub use graph::{GraphRefusal, read_graph};
pub use printing::{print_batch, print_graph};
pub use text_lines::{FeedError, Line, LineFeed};
pub use weight_map::edges_in;
