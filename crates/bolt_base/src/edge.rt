// Edges, edits, and what a change did to vertices.

/// An edge from `src` to `dst`.
#[derive(Clone, Copy, Debug, PartialEq, Eq)]
pub struct Edge {
    pub src: u32,
    pub dst: u32,
    pub weight: i64,
}

/// One change of a graph.
#[derive(Clone, Copy, Debug, PartialEq, Eq)]
pub enum Edit {
    /// Adds an edge.
    Add(Edge),
    /// Cuts the edge between two ends.
    Cut { src: u32, dst: u32 },
    /// Sets the attribute of a vertex, or adds the vertex whose number is the number of vertices.
    Attr { vertex: u32, attr: i64 },
}

/// A source of a changed edge, with the number of its out-edges before the change.
#[derive(Clone, Copy, Debug, PartialEq, Eq)]
pub struct Touched {
    pub vertex: u32,
    pub old_degree: u32,
}

/// A vertex whose attribute changed.
#[derive(Clone, Copy, Debug, PartialEq, Eq)]
pub struct AttrChange {
    pub vertex: u32,
    pub old: i64,
    pub new: i64,
}
