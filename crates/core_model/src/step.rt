// What may happen to the core, and what it answers.
use board::{Query, Reply};
use bolt_base::EditList;
use round_journal::Outcome;

/// What may happen to the core.
#[derive(Debug, Drop)]
pub enum Step {
    /// An origin enters a batch of these edits, one on each line from line 1.
    Submit { origin: u32, edits: EditList },
    /// The lowest undecided entry becomes the round in progress.
    Take,
    /// The first addition that is left in a piece of the round is made.
    Add { piece: u32 },
    /// The iteration is applied, from the words of the aggregates, and the next one begins.
    Settle,
    /// The round in progress ends, accepted or refused.
    Decide,
    /// The accepted round is published.
    Publish,
    /// A question is asked at a desk.
    Ask { desk: u32, query: Query },
    /// A desk learns how many rounds are published.
    Learn { desk: u32 },
}

/// What the core answers to a step.
#[derive(Clone, Copy, Debug)]
pub enum Effect {
    /// The batch was entered with this ticket.
    Ticket(u64),
    /// The batch wasn't entered: as many entries are undecided as may be.
    Full,
    /// It is done.
    Done,
    /// What became of the round that was in progress.
    Decided(Outcome),
    /// What the desk replies.
    Answered(Reply),
    /// The step doesn't fit, and nothing changed.
    Nothing,
}
