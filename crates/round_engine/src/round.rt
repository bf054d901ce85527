// What became of a batch.
use bolt_base::ChangeList;

/// A batch that was committed.
#[derive(Debug, Drop)]
pub struct Round {
    /// How many batches were committed, with this one.
    pub number: u64,
    /// How many edges the graph now has and didn't have with this weight.
    pub added: u32,
    /// How many edges it had and doesn't have with this weight.
    pub removed: u32,
    /// The number of edges.
    pub edges: u32,
    /// The number of kept entries of all vertices.
    pub kept: u64,
    /// How many edges were read.
    pub visits: u64,
    /// The vertices whose answer differs and the new ones, rising, with their new values.
    pub changes: ChangeList,
}
