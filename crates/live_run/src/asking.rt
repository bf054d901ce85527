// The threads that ask the questions of files.
ghost use Rattle.std.specs.Prelude.{◌≡◌, ◌<◌, ◌≤◌, [], length, List, IfOk, vec_capacity, vec_len};
ghost use Rattle.std.specs.List.{All};
ghost use Rattle.logbook.specs.Pages.{Book};
ghost use Rattle.run_model.specs.Program.{lanes};
ghost use Rattle.board.specs.declared.kinds.Origin.{Origin};
ghost use Rattle.board.specs.declared.publisher.TheConstants.{MOST_DESKS};
ghost use Rattle.live_text.specs.Questions.{AreWithin};
ghost use Rattle.live_text.specs.declared.question.Question.{Question};
ghost use Rattle.live_desks.specs.Asked.{AllAsked, IsAsked};
ghost use Rattle.live_run.specs.Turns.{AllTurns, AreDesksOf, AreTurns, IsTurn};

use crate::turns::{ask_file, ask_unless};
use board::{Desk, DeskList};
use bolt_base::{Gate, Memory};
use live_desks::Asked;
use live_text::QuestionList;
use std::alloc::Global;
use std::snapshot::Snapshot;
use std::sync::Wait;
use std::sync::atomic::{AtomicBool, Ordering};
use std::thread::{Promise, PromisedHandle, Scope, Threads};

/// What a thread that asks these questions at this desk hands back.
#[derive(Drop)]
pub(crate) struct AskedBy {
    pub(crate) desk: Snapshot<Desk>,
    pub(crate) questions: Snapshot<QuestionList>,
}

impl Promise<Asked> for AskedBy {
    ghost use Rattle.live_desks.specs.Asked.{IsAsked};

    ghost kept_by = { λ p a.
        IsAsked p.desk.value.book p.desk.value.origin p.questions.value a };
}

/// A thread that asks the questions of a file, or the desk at which they are to be asked later.
#[derive(Drop)]
pub(crate) enum Turn {
    Away(PromisedHandle<Asked, AskedBy>),
    Later(Desk),
}

/// A flag for each file of questions, none of them set.
pub(crate) fn new_flags(alloc: Global, files: usize) -> Result<Vec<AtomicBool>, Memory>
    ensures { IfOk result (λ flags. vec_len flags ≡ files) }
{
    let mut flags = Vec::with_capacity(alloc, files)?;
    for _ in 0..files {
        flags.push_reserved(AtomicBool::new(false));
    }
    Ok(flags)
}

// Starts a thread that asks the questions of a file. Where there is none, the desk comes back by
// the thread's closure, which asks nothing once the flag is set.
fn start_asker<'s, E, R: Threads + Wait + Sync, T: Gate + Sync>(
    scope: &Scope<'s, E>,
    rt: &'s R,
    alloc: Global,
    gate: &'s T,
    desk: Desk,
    questions: &'s QuestionList,
    file: u32,
    skip: &'s AtomicBool,
) -> Turn
    requires file { file < MOST_DESKS }
    requires within { AreWithin (lanes desk.origin.program) questions.now }
    ensures { IsTurn desk.book desk.origin questions.now result }
{
    let promise = AskedBy {
        desk: Snapshot::of(&desk),
        questions: Snapshot::of(questions),
    };
    let thread = scope.spawn_with(
        promise,
        move || -> Asked
            requires file { file < MOST_DESKS }
            requires within { AreWithin (lanes desk.origin.program) questions.now }
            ensures { IsAsked desk.book desk.origin questions.entry.now result }
        { ask_unless(rt, alloc, gate, desk, questions, file, skip) },
    );
    match thread {
        Ok(child) => Turn::Away(child),
        Err(refused) => {
            skip.store(true, Ordering::SeqCst);
            let asked = (refused.value)();
            Turn::Later(asked.desk)
        }
    }
}

/// Starts a thread for each file of questions, with a desk of its own.
pub(crate) fn start_askers<'s, E, R: Threads + Wait + Sync, T: Gate + Sync>(
    scope: &Scope<'s, E>,
    rt: &'s R,
    alloc: Global,
    gate: &'s T,
    desks: DeskList,
    questions: &'s [QuestionList],
    skips: &'s [AtomicBool],
    turns: Vec<Turn>,
) -> Vec<Turn>
    requires few { length questions.now ≤ MOST_DESKS }
    requires desks { length desks ≡ length questions.now }
    requires skips { length skips.now ≡ length questions.now }
    requires room { (vec_len turns ≡ 0) × (length questions.now ≤ vec_capacity turns) }
    requires within { All (λ d. All (AreWithin (lanes d.origin.program)) questions.now) desks }
    ensures { (b : Book) (o : Origin) → AreDesksOf b o desks
        → AllTurns b o questions.now result.items }
{
    let mut desks = desks;
    let mut turns = turns;
    for (number, file) in questions.iter().enumerate() {
        let Some(desk) = desks.pop() else {
            unreachable!()
        };
        let skip = &skips[number];
        turns.push_reserved(start_asker(scope, rt, alloc, gate, desk, file, number as u32, skip));
    }
    turns
}

// Waits for the thread, or asks the questions here.
fn finish<R: Threads + Wait, T: Gate>(
    rt: &R,
    alloc: Global,
    gate: &T,
    turn: Turn,
    questions: &QuestionList,
    file: u32,
) -> Asked
    requires file { file < MOST_DESKS }
    requires turn { (b : Book) × (o : Origin) × IsTurn b o questions.now turn }
    ensures { (b : Book) (o : Origin) → IsTurn b o questions.now turn
        → IsAsked b o questions.now result }
{
    match turn {
        Turn::Away(child) => child.join(rt),
        Turn::Later(desk) => ask_file(rt, alloc, gate, desk, questions, file),
    }
}

/// What the threads hand back. The questions of the other files are asked here.
pub(crate) fn finish_all<R: Threads + Wait, T: Gate>(
    rt: &R,
    alloc: Global,
    gate: &T,
    turns: Vec<Turn>,
    questions: &[QuestionList],
    asked: Vec<Asked>,
) -> Vec<Asked>
    requires few { length questions.now ≤ MOST_DESKS }
    requires turns { AreTurns questions.now turns.items }
    requires room { (vec_len asked ≡ 0) × (length questions.now ≤ vec_capacity asked) }
    ensures { (b : Book) (o : Origin) → AllTurns b o questions.now turns.items
        → AllAsked b o questions.now result.items }
{
    let mut asked = asked;
    for turn in turns {
        let file = asked.len();
        let one = finish(rt, alloc, gate, turn, &questions[file], file as u32);
        asked.push_reserved(one);
    }
    asked
}
