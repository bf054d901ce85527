// What a live run made.
use board::Reply;
use bolt_base::Items;
use round_journal::Outcome;

/// A batch that was made: its stream, counted from 0, its number in that stream, counted from 1,
/// and what became of it.
#[derive(Clone, Copy, Debug)]
pub struct MadeEntry {
    pub stream: u32,
    pub number: u64,
    pub outcome: Outcome,
}

/// The batches that were made, in the order of their tickets, which count from 1.
pub type MadeList = Items<MadeEntry>;

/// What a desk replied to each question of its file, in order; an unknown one has no reply.
pub type ReplyList = Items<Option<Reply>>;

/// What a desk replied to its questions, and its last reply, which is the sum of lane 0.
#[derive(Debug, Drop)]
pub struct DeskReplies {
    pub replies: ReplyList,
    pub last: Reply,
}

/// What each desk replied, in order.
pub type DeskReplyList = Items<DeskReplies>;
