// What becomes of one row.
use crate::patch::Patch;

/// What becomes of a row: its new degree, and the patch to put over it.
#[derive(Drop)]
pub struct RowChange {
    pub degree: usize,
    pub patch: Patch,
}
