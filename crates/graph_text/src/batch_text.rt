// Batches of edits, and one that is being read.
ghost use Rattle.std.specs.Prelude.{◌≡◌, IfOk};

use crate::bad_line::BadLine;
use bolt_base::{EditList, LineList, Memory};
use std::alloc::Global;

/// A batch of a stream: the number of its first line, its edits with the number of the line of
/// each, and its bad line.
/// The edits are those before the bad line, and none where the batch has no end.
#[derive(Debug, Drop)]
pub struct BatchText {
    pub first_line: u64,
    pub edits: EditList,
    pub lines: LineList,
    pub bad: Option<BadLine>,
}

impl BatchText {
    /// An equal batch.
    pub fn copy(&self, alloc: Global) -> Result<BatchText, Memory>
        ensures equal { IfOk result (λ copy. copy ≡ self.now) }
    {
        let edits = self.edits.copy(alloc)?;
        let lines = self.lines.copy(alloc)?;
        Ok(BatchText {
            first_line: self.first_line,
            edits,
            lines,
            bad: self.bad,
        })
    }
}

/// A batch whose end wasn't read yet; its first line is None while all its lines are empty.
#[derive(Debug, Drop)]
pub struct OpenBatch {
    pub first_line: Option<u64>,
    pub edits: EditList,
    pub lines: LineList,
    pub bad: Option<BadLine>,
}
