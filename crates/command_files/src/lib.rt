//! Opens and reads the files that a command names, and writes its texts.
#![tactic(auto)]

mod files;
mod stop;
mod texts;

pub use files::{load_graph, open};
pub use stop::{Stop, bad_or_stop};
pub use texts::put;
