// What a live run replies.
ghost use Rattle.std.specs.Prelude.{Ok, IfOk};
ghost use Rattle.command_live.specs.Replies.{IsReplyTo, IsRunnable};

use batch_steps::Reply;
use bolt_base::{Gate, Memory};
use engine_runs::EngineAnswer;
use live_course::live_reply;
use live_opening::LiveRun;
use live_run::{Lived, live_run};
use std::alloc::Global;
use std::sync::Wait;
use std::thread::Threads;

// Makes the batches of a run and asks its questions, and tells the text of both.
fn run_reply<R: Threads + Wait + Sync, T: Gate + Sync>(
    rt: &R,
    alloc: Global,
    gate: &T,
    run: LiveRun,
) -> Result<Reply, Memory>
    requires runnable { IsRunnable run }
    ensures { IfOk result (IsReplyTo (Ok run)) }
{
    let LiveRun {
        text,
        engine,
        texts,
    } = run;
    let streams = texts.streams.as_slice();
    let questions = texts.questions.as_slice();
    let Lived {
        engine,
        made,
        desks,
    } = live_run(rt, alloc, gate, engine, streams, questions)?;
    live_reply(
        alloc,
        text.as_slice(),
        made.as_slice(),
        desks.as_slice(),
        &EngineAnswer { engine: &engine },
        engine.vertices(),
        engine.accepted().program().entries().ranges.len() as u32,
    )
}

/// The reply of a run that was opened, or the one that refuses it.
pub(crate) fn reply_to<R: Threads + Wait + Sync, T: Gate + Sync>(
    rt: &R,
    alloc: Global,
    gate: &T,
    opened: Result<LiveRun, Reply>,
) -> Result<Reply, Memory>
    requires runnable { IfOk opened IsRunnable }
    ensures { IfOk result (IsReplyTo opened) }
{
    match opened {
        Ok(run) => run_reply(rt, alloc, gate, run),
        Err(refusal) => Ok(refusal),
    }
}
