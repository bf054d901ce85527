// Entries of vertices, as lists.
use bolt_base::{Items, Lanes};

/// What some vertices have, each its aggregate and its value; or one vertex at some iterations.
pub type EntryRow = Items<(Lanes, Lanes)>;
/// Rows of entries.
pub type EntryRows = Items<EntryRow>;
