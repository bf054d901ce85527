// The last replies of desks, on all that was published.
ghost use Rattle.std.specs.Prelude.{◌≡◌, ◌<◌, length, IfOk, MatchResult, Ok, Err};
ghost use mathlib.Core.List.{IsPrefix};
ghost use Rattle.run_model.specs.Program.{lanes};
ghost use Rattle.board.specs.Log.{IsRightLog, rounds_of, shows};
ghost use Rattle.board.specs.Queries.{means};
ghost use Rattle.board.specs.declared.query.Query.TheVariants.{Total};
ghost use Rattle.live_course.specs.Replied.{AllReplied};
ghost use Rattle.live_desks.specs.Asked.{AllAsked};
ghost use Rattle.live_desks.specs.Shown.{edits_of};

use crate::asking::Asked;
use board::{Desk, Publisher, Query, Receipt, Reply};
use bolt_base::{Items, Memory};
use live_course::{DeskReplies, DeskReplyList};
use live_text::QuestionList;
use std::alloc::Global;
use std::sync::Wait;

// Has the desk learn a receipt, and asks for the sum of lane 0 until the reply is on all that the
// receipt names.
fn last_reply<R: Wait>(rt: &R, desk: &mut Desk, receipt: Receipt) -> Reply
    requires book { receipt.seen.book ≡ desk.old.book }
    requires lane { 0 < lanes desk.old.origin.program }
    ensures prefix { result.prefix ≡ length (rounds_of receipt.seen.log) }
    ensures body { result.body
        ≡ means (Total 0) (shows desk.old.origin (rounds_of receipt.seen.log)) }
    ensures right { IsRightLog desk.old.origin (rounds_of receipt.seen.log) }
    ensures later { IsPrefix desk.old.seen (rounds_of receipt.seen.log) }
{
    let count = receipt.prefix;
    desk.learn(receipt);
    for _ in rt.forever() {
        let reply = desk.ask(rt, &Query::Total(0));
        if reply.prefix == count {
            return reply;
        }
    }
    unreachable!()
}

// The replies of a desk, and its last one. Memory exactly where it has no replies.
fn finish<R: Wait>(rt: &R, asked: Asked, receipt: Receipt) -> Result<DeskReplies, Memory>
    requires book { receipt.seen.book ≡ asked.desk.book }
    requires lane { 0 < lanes asked.desk.origin.program }
    ensures replies { MatchResult result
        (λ d. asked.replies ≡ Ok d.replies) (λ refused. asked.replies ≡ Err refused) }
    ensures prefix { IfOk result (λ d. d.last.prefix ≡ length (rounds_of receipt.seen.log)) }
    ensures body { IfOk result (λ d. d.last.body
        ≡ means (Total 0) (shows asked.desk.origin (rounds_of receipt.seen.log))) }
    ensures right { IfOk result (λ d. IsRightLog asked.desk.origin (rounds_of receipt.seen.log)) }
    ensures later { IfOk result (λ d. IsPrefix asked.desk.seen (rounds_of receipt.seen.log)) }
{
    let Asked { mut desk, replies } = asked;
    let replies = replies?;
    let last = last_reply(rt, &mut desk, receipt);
    Ok(DeskReplies { replies, last })
}

/// Has each desk reply once more, with the sum of lane 0 on all that is published: it learns a
/// receipt of the publisher, and is asked until its reply is on all that the receipt names. It
/// fails where a desk has no replies or there is no memory for the list.
pub fn last_replies<R: Wait>(
    rt: &R,
    alloc: Global,
    publisher: &mut Publisher,
    asked: Vec<Asked>,
    questions: &[QuestionList],
) -> Result<DeskReplyList, Memory>
    requires lane { 0 < lanes publisher.old.origin.program }
    requires asked { AllAsked publisher.old.book publisher.old.origin questions.now asked.items }
    ensures replied { IfOk result (λ desks. AllReplied publisher.old.origin.program
        publisher.old.origin.graph (edits_of publisher.old.log) questions.now desks) }
    ensures publisher { publisher.new ≡ publisher.old }
{
    let mut all = Vec::with_capacity(alloc, questions.len())?;
    for one in asked {
        all.push_reserved(finish(rt, one, publisher.tell())?);
    }
    Ok(Items::from_vec(all))
}
