//! What refinement of sums and of minima share: the rows of a changed graph, put over those of the
//! graph before, iteration after iteration.
#![tactic(auto)]

mod applied;
mod dirty;
mod first;
mod laws;
mod lists;
mod merging;
mod old_graph;
mod put;
mod reads;
mod row_values;
mod rows;
mod values;

pub use applied::{applied_vertices, begun_vertices};
pub use dirty::{changed_vertices, dirty_vertices};
pub use first::begin;
pub use laws::{refinement_ends, refinement_goes_on};
pub use merging::merge;
pub use old_graph::OldGraph;
pub use put::put_entry;
pub use rows::{LaidRow, OldRow};
pub use values::{laid_value, old_agg, old_value};
