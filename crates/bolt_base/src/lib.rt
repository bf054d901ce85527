//! The types and definitions that every crate of bolt shares: graphs, edits, the lanes of a value,
//! limits, meters and lists.
#![tactic(auto)]

mod answer;
mod change_laws;
mod decimals;
mod edge;
mod edit_laws;
mod gate;
mod graph_data;
mod items;
mod lanes;
mod laws;
mod limits;
mod list_laws;
mod memory;
mod meter;
mod rows;

pub use answer::{AnswerChange, Choice};
pub use change_laws::{
    changes_are_filters, edges_are_counted, edges_are_parts, out_edges_are_known,
    touched_pairs_tell,
};
pub use edge::{AttrChange, Edge, Edit, Touched};
pub use edit_laws::{
    edits_append, edits_change_what_they_name, edits_move_one_edge, good_edits_find_room,
};
pub use gate::{Gate, OpenGate};
pub use graph_data::GraphData;
pub use items::{
    Answer, AttrChangeList, AttrList, BatchList, Bytes, ChangeList, EdgeList, EditList, Items,
    LineList, SourceList, TargetList,
};
pub use lanes::Lanes;
pub use laws::{
    amounts_add_up, bad_is_first, changes_are_net, good_stays_good, kept_reads_back, order_is_free,
    pieces_are_whole,
};
pub use limits::{Limits, LineCause};
pub use list_laws::{columns_are_entries, lists_are_graphs, pairs_are_ordered, stored_are_counted};
pub use memory::Memory;
pub use meter::{Meter, VisitMeter};
pub use rows::{MOST_ROWS, Rows};

#[cfg(test)]
mod tests;
