// Desks that are asked questions before and after a round is published.
ghost use Rattle.std.specs.Prelude.{◌≡◌, ◌≤◌, ◌<◌, ℕ, [], None, IfOk};
ghost use Rattle.bolt_base.specs.Graph.{vertices};
ghost use Rattle.run_model.specs.Program.{lanes};
ghost use Rattle.run_model.specs.Rows.{answer};
ghost use Rattle.live_text.specs.Questions.{AreWithin};

use crate::rank::rank_program;
use crate::runs::{edits, graph_of};
use adjacency::{Adjacency, Graph};
use board::{Body, Desk, Publisher, Query, Reply, RoundNote, open};
use bolt_base::{Answer, ChangeList, EditList, Memory, VisitMeter};
use live_course::{DeskReplies, DeskReplyList};
use live_desks::{ask_all, last_replies};
use live_text::{Question, QuestionList};
use range_check::{Accepted, check};
use std::alloc::Global;
use std::sync::Wait;
use std::test::Fail;
use sync_engine::full_run;

// A value, a question of no form, and the prefix.
fn three_questions(alloc: Global) -> Result<QuestionList, Memory>
    ensures { (n : ℕ) → IfOk result (λ qs. AreWithin n qs) }
{
    let questions = [
        Question::Ask(Query::Value(1)),
        Question::Unknown,
        Question::Ask(Query::Prefix),
    ];
    QuestionList::from_slice(alloc, &questions)
}

// A round that changes nothing.
fn empty_round(alloc: Global) -> RoundNote
    ensures edits { result.edits ≡ [] }
    ensures changes { result.changes ≡ [] }
{
    RoundNote {
        edits: EditList::new(alloc),
        changes: ChangeList::new(alloc),
    }
}

// Asks one desk at the opening and the other one after a round, and then both once more.
fn replies_around_a_round<R: Wait>(
    rt: &R,
    alloc: Global,
    publisher: &mut Publisher,
    first: Desk,
    second: Desk,
) -> Result<DeskReplyList, Memory>
    requires new { (publisher.old.log ≡ []) × (publisher.old.held ≡ None) }
    requires room { vertices publisher.old.origin.graph ≤ publisher.old.room }
    requires lane { 0 < lanes publisher.old.origin.program }
    requires first { (first.book ≡ publisher.old.book) × (first.origin ≡ publisher.old.origin) }
    requires second { (second.book ≡ publisher.old.book) × (second.origin ≡ publisher.old.origin) }
{
    let questions = vec![in alloc; three_questions(alloc)?, three_questions(alloc)?]?;
    let first = ask_all(rt, alloc, first, questions[0].as_slice());
    publisher.hold(empty_round(alloc))?;
    publisher.publish(rt);
    let second = ask_all(rt, alloc, second, questions[1].as_slice());
    let asked = vec![in alloc; first, second]?;
    last_replies(rt, alloc, publisher, asked, questions.as_slice())
}

// The same of a board over the answer of a program on a graph.
fn replies_of_a_board<R: Wait>(
    rt: &R,
    alloc: Global,
    accepted: &Accepted,
    graph: &Graph,
    start: &Answer,
) -> Result<DeskReplyList, Memory>
    requires { start.now ≡ answer accepted.now graph.now.now }
{
    let room = graph.vertices();
    let lanes = accepted.program().entries().ranges.len();
    let (mut publisher, mut desks) = open(rt, alloc, accepted, graph, start, room, 2)?;
    let replies = match (desks.pop(), desks.pop()) {
        (Some(first), Some(second)) if lanes > 0 => {
            replies_around_a_round(rt, alloc, &mut publisher, first, second)
        }
        _ => Err(Memory),
    };
    publisher.close(rt);
    replies
}

// Whether a desk replied at a prefix with a value of one lane, to no question of no form, and at
// last on round 1 with this total.
fn is_replied(desk: &DeskReplies, prefix: u64, value: i64, total: i128) -> bool {
    let replies = match desk.replies.as_slice() {
        [Some(first), None, Some(third)] => {
            is_value(first, prefix, value) && is_prefix(third, prefix)
        }
        _ => false,
    };
    replies && is_total(&desk.last, 1, total)
}

fn is_value(reply: &Reply, prefix: u64, number: i64) -> bool {
    match &reply.body {
        Body::Value(value) => reply.prefix == prefix && value.as_slice() == [number].as_slice(),
        _ => false,
    }
}

fn is_prefix(reply: &Reply, prefix: u64) -> bool {
    reply.prefix == prefix && matches!(reply.body, Body::Prefix)
}

fn is_total(reply: &Reply, prefix: u64, sum: i128) -> bool {
    match reply.body {
        Body::Total(total) => reply.prefix == prefix && total == sum,
        _ => false,
    }
}

#[test]
fn desks_reply_around_a_round(rt: HostRuntime) -> Result<(), Fail> {
    let alloc = rt.alloc();
    let accepted = check(alloc, rank_program(alloc)?)?;
    let graph = graph_of(alloc, &accepted, &edits())?;
    let mut meter = VisitMeter::new();
    let run = full_run(&rt, alloc, &accepted, &graph, 2, 1, &mut meter);
    let _visits = meter.finish();
    let desks = replies_of_a_board(&rt, alloc, &accepted, &graph, &run?.answer)?;
    let total = 1_166_736 + 643_248 + 1_190_009;
    match desks.as_slice() {
        [first, second] => {
            assert!(rt; is_replied(first, 0, 643_248, total));
            assert!(rt; is_replied(second, 1, 643_248, total));
        }
        _ => assert!(rt; false),
    }
    Ok(())
}
