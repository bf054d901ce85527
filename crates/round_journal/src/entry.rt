// An entry of a journal, and one that is lent.
use crate::outcome::Outcome;
use graph_text::BatchText;

/// A batch that an origin entered, and what became of it, or none while it is undecided.
#[derive(Debug, Drop)]
pub struct Entered {
    pub origin: u32,
    pub batch: BatchText,
    pub outcome: Option<Outcome>,
}

/// An entry of a journal, lent.
#[derive(Clone, Copy)]
pub struct JournalEntry<'a> {
    pub origin: u32,
    pub batch: &'a BatchText,
    pub outcome: Option<&'a Outcome>,
}
