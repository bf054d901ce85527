// A line that is bad.
use bolt_base::LineCause;

/// A bad line, by its number from 1, and why it is bad.
#[derive(Clone, Copy, Debug, PartialEq, Eq)]
pub struct BadLine {
    pub line: u64,
    pub cause: LineCause,
}
