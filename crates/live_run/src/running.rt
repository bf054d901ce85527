// The threads of a live run.
ghost use Rattle.std.specs.Prelude.{◌≡◌, ◌<◌, ◌≤◌, ◌-◌, [], ◌++◌, IfOk, length, replicate};
ghost use Rattle.std.specs.Prelude.{false, true, vec_capacity, vec_len};
ghost use Rattle.std.specs.List.{All};
ghost use Rattle.run_model.specs.Program.{lanes};
ghost use Rattle.board.specs.declared.publisher.TheConstants.{MOST_DESKS};
ghost use Rattle.round_journal.specs.declared.journal.TheConstants.{MOST_ORIGINS};
ghost use Rattle.live_text.specs.Questions.{AreWithin};
ghost use Rattle.live_works.specs.Shop.{Standing};
ghost use Rattle.live_run.specs.Lived.{HasLived};
ghost use Rattle.live_run.specs.Turns.{AreDesksOf};

use crate::asking::{Turn, new_flags, start_askers};
use crate::lived::Lived;
use crate::serving::{complete, make_and_join};
use crate::submitters::{Submitters, start_submitters};
use board::{DeskList, Publisher};
use bolt_base::{Gate, Items, Memory};
use graph_text::BatchText;
use live_desks::Asked;
use live_text::QuestionList;
use live_works::Works;
use round_journal::{Door, Journal};
use std::alloc::Global;
use std::sync::Wait;
use std::sync::atomic::AtomicBool;
use std::thread;
use std::thread::Threads;

// A journal of which as many origins are open as there are streams.
fn journal_of(alloc: Global, streams: u32) -> Result<Journal, Memory>
    requires { streams ≤ MOST_ORIGINS }
    ensures { IfOk result (λ j. j ≡ record {
      entries = [];
      decided = 0;
      closed = replicate streams false ++ replicate (MOST_ORIGINS - streams) true;
    }) }
{
    if streams == 0 {
        let mut journal = Journal::new(alloc, 1)?;
        journal.close(0);
        return Ok(journal);
    }
    Journal::new(alloc, streams)
}

// A lock round such a journal.
fn door_of(alloc: Global, streams: u32) -> Result<Door, Memory>
    requires { streams ≤ MOST_ORIGINS }
{
    let journal = journal_of(alloc, streams)?;
    Ok(Door::new(journal))
}

// Flags that have threads ask nothing, the threads that enter batches, and those that ask questions
// with what they hand back.
#[derive(Drop)]
struct Lists<'a> {
    skips: Vec<AtomicBool>,
    submitters: Submitters<'a>,
    turns: Vec<Turn>,
    asked: Vec<Asked>,
}

// The threads of a run, with what they share: the journal behind its lock, a flag for each file of
// questions, and lists with room for all of them.
fn run_threads<R: Threads + Wait + Sync, T: Gate + Sync>(
    rt: &R,
    alloc: Global,
    gate: &T,
    door: &Door,
    skips: &[AtomicBool],
    submitters: Submitters<'_>,
    turns: Vec<Turn>,
    asked: Vec<Asked>,
    works: Works<'_>,
    publisher: &mut Publisher,
    desks: DeskList,
    streams: &[Items<BatchText>],
    questions: &[QuestionList],
) -> Result<Lived, Memory>
    requires standing { Standing publisher.old works }
    requires few { length streams.now ≤ MOST_ORIGINS }
    requires some { length questions.now ≤ MOST_DESKS }
    requires desks { AreDesksOf publisher.old.book publisher.old.origin desks }
    requires each { length desks ≡ length questions.now }
    requires lane { 0 < lanes publisher.old.origin.program }
    requires within { All (AreWithin (lanes publisher.old.origin.program)) questions.now }
    requires skips { length skips.now ≡ length questions.now }
    requires started { (vec_len submitters.started ≡ 0)
        × (length streams.now ≤ vec_capacity submitters.started) }
    requires entrants { (vec_len submitters.entrants ≡ 0)
        × (length streams.now ≤ vec_capacity submitters.entrants) }
    requires turns { (vec_len turns ≡ 0) × (length questions.now ≤ vec_capacity turns) }
    requires asked { (vec_len asked ≡ 0) × (length questions.now ≤ vec_capacity asked) }
    ensures { IfOk result (HasLived publisher.old.origin.program publisher.old.origin.graph
        works.entry.engine.choice works.entry.files questions.now) }
{
    thread::scope(
        thread::scope_env(),
        rt,
        |scope| -> Result<Lived, Memory>
            requires standing { Standing publisher.now works }
            requires few { length streams.now ≤ MOST_ORIGINS }
            requires some { length questions.now ≤ MOST_DESKS }
            requires desks { AreDesksOf publisher.now.book publisher.now.origin desks }
            requires each { length desks ≡ length questions.now }
            requires lane { 0 < lanes publisher.now.origin.program }
            requires within { All (AreWithin (lanes publisher.now.origin.program)) questions.now }
            requires skips { length skips.now ≡ length questions.now }
            requires started { (vec_len submitters.started ≡ 0)
                × (length streams.now ≤ vec_capacity submitters.started) }
            requires entrants { (vec_len submitters.entrants ≡ 0)
                × (length streams.now ≤ vec_capacity submitters.entrants) }
            requires turns { (vec_len turns ≡ 0) × (length questions.now ≤ vec_capacity turns) }
            requires asked { (vec_len asked ≡ 0) × (length questions.now ≤ vec_capacity asked) }
            ensures { IfOk result (HasLived publisher.entry.now.origin.program
                publisher.entry.now.origin.graph works.entry.engine.choice
                works.entry.files questions.entry.now) }
        {
            let mut works = works;
            let submitters = start_submitters(scope, rt, alloc, gate, door, streams, submitters);
            let turns = start_askers(scope, rt, alloc, gate, desks, questions, skips, turns);
            let asked = make_and_join(
                rt, alloc, gate, door, &mut works, publisher, submitters, turns, questions, asked,
            )?;
            complete(rt, alloc, gate, works, publisher, asked, questions)
        },
    )
}

// Lists with room for the threads of so many streams and files of questions.
fn lists_for<'a>(alloc: Global, streams: usize, files: usize) -> Result<Lists<'a>, Memory>
    ensures { IfOk result (λ lists. (length lists.skips.items ≡ files)
        × (vec_len lists.submitters.started ≡ 0) × (vec_len lists.submitters.entrants ≡ 0)
        × (streams ≤ vec_capacity lists.submitters.started)
        × (streams ≤ vec_capacity lists.submitters.entrants)
        × (vec_len lists.turns ≡ 0) × (files ≤ vec_capacity lists.turns)
        × (vec_len lists.asked ≡ 0) × (files ≤ vec_capacity lists.asked)) }
{
    Ok(Lists {
        skips: new_flags(alloc, files)?,
        submitters: Submitters::new(alloc, streams)?,
        turns: Vec::with_capacity(alloc, files)?,
        asked: Vec::with_capacity(alloc, files)?,
    })
}

// Makes the batches of the streams, which come through the door.
fn run_behind<R: Threads + Wait + Sync, T: Gate + Sync>(
    rt: &R,
    alloc: Global,
    gate: &T,
    door: &Door,
    works: Works<'_>,
    publisher: &mut Publisher,
    desks: DeskList,
    streams: &[Items<BatchText>],
    questions: &[QuestionList],
) -> Result<Lived, Memory>
    requires standing { Standing publisher.old works }
    requires few { length streams.now ≤ MOST_ORIGINS }
    requires some { length questions.now ≤ MOST_DESKS }
    requires desks { AreDesksOf publisher.old.book publisher.old.origin desks }
    requires each { length desks ≡ length questions.now }
    requires lane { 0 < lanes publisher.old.origin.program }
    requires within { All (AreWithin (lanes publisher.old.origin.program)) questions.now }
    ensures { IfOk result (HasLived publisher.old.origin.program publisher.old.origin.graph
        works.entry.engine.choice works.entry.files questions.now) }
{
    let lists = lists_for(alloc, streams.len(), questions.len())?;
    let Lists {
        skips,
        submitters,
        turns,
        asked,
    } = lists;
    run_threads(
        rt,
        alloc,
        gate,
        door,
        skips.as_slice(),
        submitters,
        turns,
        asked,
        works,
        publisher,
        desks,
        streams,
        questions,
    )
}

/// Makes the batches of the streams, while threads enter them and others ask the questions.
pub(crate) fn run<R: Threads + Wait + Sync, T: Gate + Sync>(
    rt: &R,
    alloc: Global,
    gate: &T,
    works: Works<'_>,
    publisher: &mut Publisher,
    desks: DeskList,
    streams: &[Items<BatchText>],
    questions: &[QuestionList],
) -> Result<Lived, Memory>
    requires standing { Standing publisher.old works }
    requires few { length streams.now ≤ MOST_ORIGINS }
    requires some { length questions.now ≤ MOST_DESKS }
    requires desks { AreDesksOf publisher.old.book publisher.old.origin desks }
    requires each { length desks ≡ length questions.now }
    requires lane { 0 < lanes publisher.old.origin.program }
    requires within { All (AreWithin (lanes publisher.old.origin.program)) questions.now }
    ensures { IfOk result (HasLived publisher.old.origin.program publisher.old.origin.graph
        works.entry.engine.choice works.entry.files questions.now) }
{
    let door = door_of(alloc, streams.len() as u32)?;
    let lived = run_behind(
        rt, alloc, gate, &door, works, publisher, desks, streams, questions,
    );
    let _journal = door.finish();
    lived
}
