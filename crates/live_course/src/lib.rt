//! What a live run writes: its opening, the entries that it made, what its desks replied, and the
//! end.
#![tactic(auto)]

mod entries;
mod made;
mod replies;
mod text;

pub use made::{DeskReplies, DeskReplyList, MadeEntry, MadeList, ReplyList};
pub use text::live_reply;
