// What a run answers for a vertex, and how it is to be run.
use crate::lanes::Lanes;

/// The new value of a vertex whose answer changed.
#[derive(Clone, Copy, Debug, Drop)]
pub struct AnswerChange {
    pub vertex: u32,
    pub value: Lanes,
}

/// How a program is run: the last iteration that is kept (at least 1), whether iterations at which
/// a vertex has come to rest are left out, and the number of workers (1 to 64).
#[derive(Clone, Copy, Debug, PartialEq, Eq)]
pub struct Choice {
    pub cut: u32,
    pub vertical: bool,
    pub workers: u32,
}
