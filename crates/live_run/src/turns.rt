// The turn of a file of questions, of which the gate is told.
ghost use Rattle.std.specs.Prelude.{◌<◌};
ghost use Rattle.run_model.specs.Program.{lanes};
ghost use Rattle.board.specs.declared.publisher.TheConstants.{MOST_DESKS};
ghost use Rattle.live_text.specs.Questions.{AreWithin};
ghost use Rattle.live_desks.specs.Asked.{IsAsked};

use board::Desk;
use bolt_base::{Gate, Memory};
use live_desks::{Asked, ask_all};
use live_text::QuestionList;
use std::alloc::Global;
use std::sync::Wait;
use std::sync::atomic::{AtomicBool, Ordering};

/// The first piece that the gate is told of a file of questions, before its first one.
const BEFORE_PIECE: u32 = 200;

/// The first piece that the gate is told of a file of questions, after its last one.
const AFTER_PIECE: u32 = 300;

/// The piece that the gate is told after the loop.
pub(crate) const LOOP_PIECE: u32 = 400;

/// Asks the questions of a file at a desk.
pub(crate) fn ask_file<R: Wait, T: Gate>(
    rt: &R,
    alloc: Global,
    gate: &T,
    desk: Desk,
    questions: &QuestionList,
    file: u32,
) -> Asked
    requires file { file < MOST_DESKS }
    requires within { AreWithin (lanes desk.origin.program) questions.now }
    ensures { IsAsked desk.book desk.origin questions.now result }
{
    gate.pass(BEFORE_PIECE + file);
    let asked = ask_all(rt, alloc, desk, questions.as_slice());
    gate.pass(AFTER_PIECE + file);
    asked
}

/// The same, but none of them is asked where the flag is set.
pub(crate) fn ask_unless<R: Wait, T: Gate>(
    rt: &R,
    alloc: Global,
    gate: &T,
    desk: Desk,
    questions: &QuestionList,
    file: u32,
    skip: &AtomicBool,
) -> Asked
    requires file { file < MOST_DESKS }
    requires within { AreWithin (lanes desk.origin.program) questions.now }
    ensures { IsAsked desk.book desk.origin questions.now result }
{
    if skip.load(Ordering::SeqCst) {
        return Asked {
            desk,
            replies: Err(Memory),
        };
    }
    ask_file(rt, alloc, gate, desk, questions, file)
}
