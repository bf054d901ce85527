// What contracts see of a board. No value of these types is made.
use bolt_base::{AnswerChange, Edit, GraphData, Lanes};
use std::collections::LinkedList;
use vertex_expr::Program;

/// What a board began with: the program, and the graph as it was then.
pub struct Origin {
    pub program: Program,
    pub graph: GraphData,
}

/// An entry of the book. The first one has the origin, and each later one a round.
pub struct Entry {
    pub origin: Origin,
    pub edits: LinkedList<Edit>,
    pub changes: LinkedList<AnswerChange>,
}

/// Which board it is: its book and its origin.
pub struct Mark {
    pub known: bool,
    pub number: u64,
    pub log_name: u64,
    pub cells_name: u64,
    pub origin: Origin,
}

/// What the two copies of an answer have in common.
pub struct Sheet {
    pub mark: Mark,
    pub room: u32,
    pub width: u32,
    pub answer: LinkedList<Lanes>,
    pub log: LinkedList<Entry>,
}
