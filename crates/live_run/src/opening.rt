// The board of a live run, and its works.
ghost use Rattle.std.specs.Prelude.{◌≡◌, ◌≤◌, None, IfOk, length};
ghost use Rattle.std.specs.List.{All};
ghost use Rattle.bolt_base.specs.Graph.{room as room_for, vertices};
ghost use Rattle.run_model.specs.Program.{lanes};
ghost use Rattle.board.specs.declared.publisher.TheConstants.{MOST_DESKS};
ghost use Rattle.round_journal.specs.declared.journal.TheConstants.{MOST_ORIGINS};
ghost use Rattle.engine_runs.specs.State.{IsUnderWay};
ghost use Rattle.live_text.specs.Questions.{AreWithin};
ghost use Rattle.live_course.specs.Made.{AreSound};
ghost use Rattle.live_run.specs.Lived.{HasLived};
ghost use Rattle.live_run.specs.Opened.{IsOpenedBeside};
ghost use Rattle.live_run.specs.Turns.{AreDesksOf};

use crate::lived::Lived;
use crate::running::run;
use board::{DeskList, Publisher, open};
use bolt_base::{Gate, Items, Memory};
use engine_runs::answer_of;
use graph_text::BatchText;
use live_text::QuestionList;
use live_works::Works;
use round_engine::Engine;
use std::alloc::Global;
use std::sync::Wait;
use std::thread::Threads;

// The number of vertices to which an engine's graph may grow.
fn room_of(engine: &Engine) -> u32
    requires { engine.now.next ≡ None }
    ensures room { result ≡ room_for engine.now.program.limits engine.now.opened }
    ensures fits { vertices engine.now.now ≤ result }
{
    engine.graph().limits().vertices
}

/// A board that shows an engine's answer, and its desks.
pub(crate) fn open_board<R: Wait>(
    rt: &R,
    alloc: Global,
    engine: &Engine,
    desks: u32,
) -> Result<(Publisher, DeskList), Memory>
    requires idle { engine.now.next ≡ None }
    requires few { desks ≤ MOST_DESKS }
    ensures publisher { IfOk result (λ r. IsOpenedBeside engine.now r.0) }
    ensures count { IfOk result (λ r. length r.1 ≡ desks) }
    ensures desks { IfOk result (λ r. AreDesksOf r.0.book r.0.origin r.1) }
{
    let start = answer_of(alloc, engine)?;
    let room = room_of(engine);
    open(
        rt,
        alloc,
        engine.accepted(),
        engine.graph(),
        &start,
        room,
        desks,
    )
}

/// Makes the batches of the streams by an engine beside which the board was opened, while threads
/// enter them and others ask the questions.
pub(crate) fn run_beside<R: Threads + Wait + Sync, T: Gate + Sync>(
    rt: &R,
    alloc: Global,
    gate: &T,
    engine: Engine,
    publisher: &mut Publisher,
    desks: DeskList,
    streams: &[Items<BatchText>],
    questions: &[QuestionList],
) -> Result<Lived, Memory>
    requires ready { IsUnderWay engine }
    requires new { engine.number ≡ 0 }
    requires opened { engine.opened ≡ vertices engine.now }
    requires beside { IsOpenedBeside engine publisher.old }
    requires desks { AreDesksOf publisher.old.book publisher.old.origin desks }
    requires each { length desks ≡ length questions.now }
    requires few { length streams.now ≤ MOST_ORIGINS }
    requires sound { AreSound streams.now }
    requires files { length questions.now ≤ MOST_DESKS }
    requires within { All (AreWithin (lanes engine.program)) questions.now }
    ensures { IfOk result (HasLived engine.program engine.now engine.choice
        streams.now questions.now) }
{
    let _accepted = engine.accepted();
    let works = Works::new(alloc, streams, engine)?;
    run(rt, alloc, gate, works, publisher, desks, streams, questions)
}
