//! The lines that commands write, and what a run writes of its graph and its batches.
#![tactic(auto)]

mod lines;
mod programs;
mod refusals;
mod values;

pub use lines::{
    BatchNumbers, OpenNumbers, push_accepted, push_end, push_labelled, push_once, push_open,
};
pub use programs::{check_text, range_refused, text_refused};
pub use refusals::{cells_refused, graph_refused, push_refused, words_refused};
pub use values::{push_lane, push_lanes, push_sets, push_totals, push_values};
