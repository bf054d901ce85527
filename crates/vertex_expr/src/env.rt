// What an expression reads.
use bolt_base::Lanes;

/// The numbers that an expression reads. It uses only those that its part may mention.
#[derive(Clone, Copy, Debug)]
pub struct Env {
    /// The source's value at the iteration before.
    pub val: Lanes,
    /// The vertex's aggregate.
    pub agg: Lanes,
    /// The vertex's value at the iteration before.
    pub old: Lanes,
    /// The number of edges out of the source.
    pub outdeg: u32,
    /// The edge's weight.
    pub weight: i64,
    /// The attribute of the vertex, or of the source.
    pub attr: i64,
    /// The number of the vertex, or of the source.
    pub id: u32,
}
