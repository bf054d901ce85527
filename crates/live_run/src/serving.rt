// What the caller's thread does while the others run, and after them.
ghost use Rattle.std.specs.Prelude.{◌≡◌, ◌<◌, ◌≤◌, IfOk, length, vec_capacity, vec_len};
ghost use Rattle.run_model.specs.Program.{lanes};
ghost use Rattle.board.specs.declared.publisher.TheConstants.{MOST_DESKS};
ghost use Rattle.live_works.specs.Shop.{Standing};
ghost use Rattle.live_desks.specs.Asked.{AllAsked};
ghost use Rattle.live_run.specs.Lived.{HasLived};
ghost use Rattle.live_run.specs.Turns.{AllTurns};

use crate::asking::{Turn, finish_all};
use crate::lived::Lived;
use crate::submitters::{Submitters, join_submitters};
use crate::turns::LOOP_PIECE;
use board::Publisher;
use bolt_base::{Gate, Items, Memory};
use live_desks::{Asked, last_replies};
use live_text::QuestionList;
use live_works::{Worked, Works, close_all, make_entries, make_left};
use round_journal::Door;
use std::alloc::Global;
use std::sync::Wait;
use std::thread::Threads;

/// Makes the entries until the loop ends, closes every origin, and waits for all threads. It
/// answers what the files of questions were replied.
pub(crate) fn make_and_join<R: Threads + Wait + Sync, T: Gate + Sync>(
    rt: &R,
    alloc: Global,
    gate: &T,
    door: &Door,
    works: &mut Works<'_>,
    publisher: &mut Publisher,
    submitters: Submitters<'_>,
    turns: Vec<Turn>,
    questions: &[QuestionList],
    asked: Vec<Asked>,
) -> Result<Vec<Asked>, Memory>
    requires standing { Standing publisher.old works.old }
    requires few { length questions.now ≤ MOST_DESKS }
    requires turns { AllTurns publisher.old.book publisher.old.origin questions.now turns.items }
    requires room { (vec_len asked ≡ 0) × (length questions.now ≤ vec_capacity asked) }
    ensures standing { Standing publisher.new works.new }
    ensures asked { IfOk result (λ asked.
        AllAsked publisher.old.book publisher.old.origin questions.now asked.items) }
    ensures files { works.new.files ≡ works.old.files }
    ensures choice { works.new.engine.choice ≡ works.old.engine.choice }
    ensures origin { publisher.new.origin ≡ publisher.old.origin }
    ensures book { publisher.new.book ≡ publisher.old.book }
{
    let Submitters {
        started,
        mut entrants,
    } = submitters;
    let entrants = entrants.as_mut_slice();
    let made = make_entries(rt, alloc, gate, door, works, publisher, entrants);
    close_all(rt, door);
    gate.pass(LOOP_PIECE);
    let entered = join_submitters(rt, started);
    let asked = finish_all(rt, alloc, gate, turns, questions, asked);
    made?;
    entered?;
    Ok(asked)
}

/// Makes the batches that are left, and has each desk reply once more.
pub(crate) fn complete<R: Threads + Wait + Sync, T: Gate + Sync>(
    rt: &R,
    alloc: Global,
    gate: &T,
    works: Works<'_>,
    publisher: &mut Publisher,
    asked: Vec<Asked>,
    questions: &[QuestionList],
) -> Result<Lived, Memory>
    requires standing { Standing publisher.old works }
    requires asked { AllAsked publisher.old.book publisher.old.origin questions.now asked.items }
    requires lane { 0 < lanes publisher.old.origin.program }
    ensures { IfOk result (HasLived publisher.old.origin.program publisher.old.origin.graph
        works.entry.engine.choice works.entry.files questions.now) }
{
    let mut works = works;
    make_left(rt, alloc, gate, &mut works, publisher)?;
    let desks = last_replies(rt, alloc, publisher, asked, questions)?;
    let Worked { engine, made } = works.into_worked();
    Ok(Lived {
        engine,
        made: Items::from_vec(made),
        desks,
    })
}
