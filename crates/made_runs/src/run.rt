// A run over made batches.
ghost use Rattle.std.specs.Prelude.{◌≡◌, ◌≤◌, [], length, map, IfOk, OnOk};
ghost use Rattle.std.specs.List.{All};
ghost use Rattle.batch_run.specs.Opened.{course, IsReady};
ghost use Rattle.batch_steps.specs.Steps.{prepend, rest_reply};
ghost use Rattle.command_course.specs.Still.{made_batch};
ghost use Rattle.engine_stream.specs.Taken.{taken};
ghost use Rattle.graph_text.specs.declared.batch_reader.TheConstants.{MOST_EDITS};
ghost use Rattle.made_runs.specs.Answered.{answered};
ghost use Rattle.report_text.specs.Runs.{Run, end_reply, run_steps};

use crate::batches::batch_of;
use batch_run::Opened;
use batch_steps::Reply;
use bolt_base::{Bytes, EditList, Gate, Memory};
use engine_runs::Progress;
use std::alloc::Global;
use std::thread::Threads;

// Has a run take batch after batch, and appends what it answers.
fn take_batches<R: Threads + Sync, T: Gate + Sync>(
    rt: &R,
    alloc: Global,
    gate: &T,
    run: &mut Progress,
    batches: &[EditList],
    out: &mut Bytes,
) -> Result<(), Memory>
    requires fresh { taken run.old ≡ 0 }
    requires small { All (λ edits. length edits ≤ MOST_EDITS) batches.now }
    ensures { OnOk result (prepend out.new (end_reply run.new)
        ≡ prepend out.old (rest_reply run_steps run.old (map made_batch batches.now))) }
{
    let _count = batches.len();
    for edits in batches {
        let batch = batch_of(alloc, edits)?;
        let text = run.take(rt, alloc, gate, &batch)?;
        out.extend_from_slice(text.as_slice())?;
    }
    Ok(())
}

// The reply of a run, whose opening text is given, to some batches.
fn run_over<R: Threads + Sync, T: Gate + Sync>(
    rt: &R,
    alloc: Global,
    gate: &T,
    opening: Bytes,
    run: Progress,
    batches: &[EditList],
) -> Result<Reply, Memory>
    requires fresh { taken run ≡ 0 }
    requires small { All (λ edits. length edits ≤ MOST_EDITS) batches.now }
    ensures { IfOk result (λ reply.
        reply ≡ prepend opening (rest_reply run_steps run (map made_batch batches.now))) }
{
    let mut text = opening;
    let mut run = run;
    take_batches(rt, alloc, gate, &mut run, batches, &mut text)?;
    let end = run.end_text(alloc)?;
    text.extend_from_slice(end.as_slice())?;
    Ok(Reply {
        text,
        status: run.status(),
    })
}

/// The refusal, or the reply of the run to some batches.
pub(crate) fn reply_to<R: Threads + Sync, T: Gate + Sync>(
    rt: &R,
    alloc: Global,
    gate: &T,
    opened: Opened<Progress>,
    batches: &[EditList],
) -> Result<Reply, Memory>
    requires ready { IsReady taken opened }
    requires small { All (λ edits. length edits ≤ MOST_EDITS) batches.now }
    ensures { IfOk result (λ reply. reply ≡ answered (map made_batch batches.now)
        (course (λ (r : Run). r) run_steps [] opened)) }
{
    match opened {
        Opened::Refused(refusal) => Ok(refusal),
        Opened::Runs { text, run } => run_over(rt, alloc, gate, text, run, batches),
    }
}
