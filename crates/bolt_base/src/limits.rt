// The limits of graphs, and the causes for which a line is bad.

/// The limits of a graph: the most vertices, edges out of or into a vertex, and edges, and the
/// ranges of weights and attributes, both ends included.
#[derive(Clone, Copy, Debug, PartialEq, Eq)]
pub struct Limits {
    pub vertices: u32,
    pub degree: u32,
    pub edges: u32,
    pub weight_lo: i64,
    pub weight_hi: i64,
    pub attr_lo: i64,
    pub attr_hi: i64,
}

/// Why a line is bad.
#[derive(Clone, Copy, Debug, PartialEq, Eq)]
pub enum LineCause {
    /// It is too long, or has none of the forms of its text.
    Syntax = 1,
    /// A vertex that isn't there, or one too many.
    Vertex = 2,
    /// A weight outside its range.
    Weight = 3,
    /// An attribute outside its range.
    Attribute = 4,
    /// The edge, or the attribute of a graph text, is there already.
    Present = 5,
    /// The edge that is cut isn't there.
    Absent = 6,
    /// A vertex would have too many edges out of it or into it.
    Degree = 7,
    /// The graph would have too many edges.
    Edges = 8,
    /// The batch has too many edits.
    Size = 9,
    /// The batch has no end.
    Unfinished = 10,
}
