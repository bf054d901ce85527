//! Additions to shared words by several workers.
#![tactic(auto)]

mod contributions;
mod fork;
mod give;
mod item;
mod laws;
mod piece;
mod prepare;
mod spreading;
mod tasks;

pub use bolt_base::{Gate, OpenGate};
pub use laws::{steps_are_good, tasks_are_steps};
pub use spreading::spread;
pub use tasks::{Source, TaskEdge, TaskEdgeList, TaskSourceList, Tasks};
