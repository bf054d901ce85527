// What desks reply to the questions of a file.
ghost use Rattle.std.specs.Prelude.{◌≡◌, length, IfOk, IfSome};
ghost use mathlib.Core.List.{IsPrefix};
ghost use Rattle.run_model.specs.Program.{lanes};
ghost use Rattle.live_text.specs.Questions.{AreWithin, IsWithin};
ghost use Rattle.live_course.specs.Replied.{IsReplyTo};
ghost use Rattle.live_desks.specs.Asked.{HaveReplies, IsAsked};
ghost use Rattle.live_desks.specs.Shown.{answer_at};

use board::{Desk, Reply};
use bolt_base::{Items, Memory};
use live_course::ReplyList;
use live_text::Question;
use std::alloc::Global;
use std::sync::Wait;

/// A desk after its questions, and its replies or that memory was wanting.
#[derive(Drop)]
pub struct Asked {
    pub desk: Desk,
    pub replies: Result<ReplyList, Memory>,
}

// Asks a question at the desk. An unknown one has no reply.
fn reply_to<R: Wait>(rt: &R, desk: &mut Desk, question: &Question) -> Option<Reply>
    requires lane { IsWithin (lanes desk.old.origin.program) question.now }
    ensures board { (desk.new.book ≡ desk.old.book) × (desk.new.origin ≡ desk.old.origin) }
    ensures later { IsPrefix desk.old.seen desk.new.seen }
    ensures reply { IsReplyTo (answer_at desk.old.origin desk.new.seen) (length desk.new.seen)
        question.now result }
    ensures newest { IfSome result (λ r. r.prefix ≡ length desk.new.seen) }
{
    match question {
        Question::Ask(query) => Some(desk.ask(rt, query)),
        Question::Unknown => None,
    }
}

// Asks the questions in order. Without memory for the replies none is asked.
fn reply_to_all<R: Wait>(
    rt: &R,
    alloc: Global,
    desk: &mut Desk,
    questions: &[Question],
) -> Result<ReplyList, Memory>
    requires lanes { AreWithin (lanes desk.old.origin.program) questions.now }
    ensures board { (desk.new.book ≡ desk.old.book) × (desk.new.origin ≡ desk.old.origin) }
    ensures replies { IfOk result (λ rs.
        HaveReplies desk.old.origin desk.new.seen questions.now rs) }
{
    let mut replies = Vec::with_capacity(alloc, questions.len())?;
    for question in questions {
        replies.push_reserved(reply_to(rt, desk, question));
    }
    Ok(Items::from_vec(replies))
}

/// Asks the questions in order at a desk, and hands it back with its replies. An unknown question
/// has no reply. Without memory for the replies none is asked.
pub fn ask_all<R: Wait>(rt: &R, alloc: Global, desk: Desk, questions: &[Question]) -> Asked
    requires { AreWithin (lanes desk.origin.program) questions.now }
    ensures { IsAsked desk.book desk.origin questions.now result }
{
    let mut desk = desk;
    let replies = reply_to_all(rt, alloc, &mut desk, questions);
    Asked { desk, replies }
}
