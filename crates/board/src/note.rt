// What is to be published.
use bolt_base::{ChangeList, EditList};

/// A round: the edits of an accepted batch, and the changes of the answer.
#[derive(Debug, Drop)]
pub struct RoundNote {
    pub edits: EditList,
    pub changes: ChangeList,
}
