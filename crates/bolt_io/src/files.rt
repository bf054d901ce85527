// The files and the slots of a shelf in memory.
use bolt_base::Bytes;

/// A file: its name and its bytes.
#[derive(Debug, Drop)]
pub struct File {
    pub name: Bytes,
    pub bytes: Bytes,
}

/// An opened file: its name, and how many of its bytes were taken.
#[derive(Debug, Drop)]
pub struct Slot {
    pub name: Bytes,
    pub taken: u64,
}
