//! Where bytes come from and go to: shelves of files and sinks as traits, both in memory for tests,
//! and calls that read or write all of a text.
#![tactic(auto)]

mod calm_shelf;
mod calm_sink;
mod fault;
mod files;
mod mem_shelf;
mod mem_sink;
mod plan;
mod shelf;
mod sink;
mod whole;

pub use calm_shelf::CalmShelf;
pub use calm_sink::CalmSink;
pub use fault::{OpenFault, ShelfFault, SinkFault};
pub use mem_shelf::MemShelf;
pub use mem_sink::MemSink;
pub use shelf::Shelf;
pub use sink::{Sink, put_all};
pub use whole::{MOST_BYTES, ReadFault, read_whole};
