// What becomes of a batch.
use bolt_base::LineCause;

/// What became of a batch.
#[derive(Clone, Copy, Debug, PartialEq, Eq)]
pub enum Outcome {
    /// It is the accepted batch of this number, counted from 1. Then come the numbers of edges
    /// that it added and removed, of all edges, of kept entries, and of visits.
    Accepted {
        round: u64,
        added: u32,
        removed: u32,
        edges: u32,
        kept: u64,
        visits: u64,
    },
    /// Its first bad line, by its number, and why it is bad.
    Refused {
        line: u64,
        cause: LineCause,
    },
    /// Memory was wanting.
    Memory,
}
