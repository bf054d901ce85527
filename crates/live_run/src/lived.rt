// A live run.
ghost use Rattle.std.specs.Prelude.{◌≡◌, ◌≤◌, IfOk, length};
ghost use Rattle.std.specs.List.{All};
ghost use Rattle.bolt_base.specs.Graph.{vertices};
ghost use Rattle.run_model.specs.Program.{lanes};
ghost use Rattle.board.specs.declared.publisher.TheConstants.{MOST_DESKS};
ghost use Rattle.round_journal.specs.declared.journal.TheConstants.{MOST_ORIGINS};
ghost use Rattle.engine_runs.specs.State.{IsUnderWay};
ghost use Rattle.live_text.specs.Questions.{AreWithin};
ghost use Rattle.live_course.specs.Made.{AreSound};
ghost use Rattle.live_run.specs.Lived.{HasLived};

use crate::opening::{open_board, run_beside};
use bolt_base::{Gate, Items, Memory};
use graph_text::BatchText;
use live_course::{DeskReplyList, MadeList};
use live_text::QuestionList;
use round_engine::Engine;
use std::alloc::Global;
use std::sync::Wait;
use std::thread::Threads;

/// What a live run leaves: the engine after its last batch, what it made, and what its desks
/// replied.
#[derive(Drop)]
pub struct Lived {
    pub engine: Engine,
    pub made: MadeList,
    pub desks: DeskReplyList,
}

/// Makes the batches of the streams, each of them entered by a thread of its own, and publishes
/// the answers, while a thread for each file of questions asks them at a desk. All threads have
/// returned when it does. The gate is told 100 + k before the first batch of stream k, 200 + k
/// before the first question of file k and 300 + k after its last one, and 400 after the loop.
pub fn live_run<R: Threads + Wait + Sync, T: Gate + Sync>(
    rt: &R,
    alloc: Global,
    gate: &T,
    engine: Engine,
    streams: &[Items<BatchText>],
    questions: &[QuestionList],
) -> Result<Lived, Memory>
    requires ready { IsUnderWay engine }
    requires new { engine.number ≡ 0 }
    requires opened { engine.opened ≡ vertices engine.now }
    requires streams { length streams.now ≤ MOST_ORIGINS }
    requires sound { AreSound streams.now }
    requires files { length questions.now ≤ MOST_DESKS }
    requires within { All (AreWithin (lanes engine.program)) questions.now }
    ensures { IfOk result (HasLived engine.program engine.now engine.choice
        streams.now questions.now) }
{
    let count = questions.len() as u32;
    let (mut publisher, desks) = open_board(rt, alloc, &engine, count)?;
    let board = &mut publisher;
    let lived = run_beside(rt, alloc, gate, engine, board, desks, streams, questions);
    publisher.close(rt);
    lived
}
