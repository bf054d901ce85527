// What the workers are to do.
use bolt_base::{Edge, Items, Lanes};
use vertex_expr::Program;

/// A vertex whose contributions change: its value, out-degree and attribute before and after, and
/// whether it is dirty.
#[derive(Clone, Copy, Debug)]
pub struct Source {
    pub vertex: u32,
    pub old: Lanes,
    pub new: Lanes,
    pub old_degree: u32,
    pub new_degree: u32,
    pub old_attr: i64,
    pub new_attr: i64,
    pub dirty: bool,
}

/// A removed or an added edge, and the place of its source in the list of sources.
#[derive(Clone, Copy, Debug, PartialEq, Eq)]
pub struct TaskEdge {
    pub source: u32,
    pub edge: Edge,
}

/// Sources, rising by vertex.
pub type TaskSourceList = Items<Source>;
/// Removed or added edges, rising by source and destination.
pub type TaskEdgeList = Items<TaskEdge>;

/// What an iteration of a sum program adds to the words of the aggregates: for removed edges, for
/// added ones, and for the
/// edges out of dirty sources that stayed.
#[derive(Debug, Drop)]
pub struct Tasks {
    pub sources: TaskSourceList,
    pub removed: TaskEdgeList,
    pub added: TaskEdgeList,
}

/// One item of the tasks: a removed edge, an added edge, or the place of a dirty source.
#[derive(Clone, Copy, Debug)]
pub(crate) enum Work {
    Removed(TaskEdge),
    Added(TaskEdge),
    Dirty(u32),
}

/// What the edges out of a source contribute before and after, whatever their weight, and where its
/// added edges begin.
#[derive(Clone, Copy, Debug)]
pub(crate) struct Sides {
    pub(crate) was: Lanes,
    pub(crate) now: Lanes,
    pub(crate) first_added: usize,
}

/// What the workers share: the tasks and what is computed of them before the first addition.
#[derive(Drop)]
pub(crate) struct Plan<'a> {
    pub(crate) program: &'a Program,
    pub(crate) tasks: &'a Tasks,
    pub(crate) works: Vec<Work>,
    pub(crate) sides: Vec<Sides>,
    pub(crate) by_edge: bool,
    pub(crate) workers: u32,
}
