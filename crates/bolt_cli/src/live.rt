// The command `live`.
ghost use Rattle.std.specs.Prelude.{◌<◌, ◌^◌, IfOk};
ghost use Rattle.batch_run.specs.Conducts.{world};
ghost use Rattle.cli_words.specs.Words.{texts};
ghost use Rattle.command_live.specs.ConductsLive.{ConductsLive};
ghost use Rattle.command_live.specs.Words.{live_named, live_opened_with, live_read};
ghost use Rattle.command_live.specs.Words.{IsLiveDecided, MayReply};
ghost use Rattle.bolt_cli.specs.AnswersLive.{AnswersLive};

use crate::refuse::refuse_words;
use bolt_base::Gate;
use bolt_io::{Shelf, Sink};
use command_files::Stop;
use command_live::live_command;
use live_words::read_live;
use std::alloc::Global;
use std::sync::Wait;
use std::thread::Threads;

// Judges the words, and does what they say.
fn live_or_stop<S: Shelf, K: Sink, T: Gate + Sync, R: Wait + Threads + Sync>(
    rt: &R,
    alloc: Global,
    words: &[String],
    shelf: &mut S,
    out: &mut K,
    gate: &T,
) -> Result<u8, Stop>
    requires room { S.opened shelf.old < 2 ^ 30 }
    ensures conducts { ConductsLive (MayReply (texts words.now)) (live_read (texts words.now))
        (live_named (texts words.now)) (live_opened_with (texts words.now))
        (world S.told S.opened S.faults K.written K.faults shelf.old out.old)
        (world S.told S.opened S.faults K.written K.faults shelf.new out.new) result }
    ensures decided { IfOk result (IsLiveDecided (texts words.now)) }
{
    match read_live(words) {
        Ok(command) => live_command(rt, alloc, gate, words, &command, shelf, out),
        Err(refusal) => refuse_words(alloc, refusal, out),
    }
}

/// Runs a command line of `live`, and answers the status of its end.
pub(crate) fn bolt_live<S: Shelf, K: Sink, T: Gate + Sync, R: Wait + Threads + Sync>(
    rt: &R,
    alloc: Global,
    words: &[String],
    shelf: &mut S,
    out: &mut K,
    gate: &T,
) -> u8
    requires slots { S.opened shelf.old < 2 ^ 30 }
    ensures { AnswersLive (texts words.now)
        (world S.told S.opened S.faults K.written K.faults shelf.old out.old)
        (world S.told S.opened S.faults K.written K.faults shelf.new out.new) result }
{
    match live_or_stop(rt, alloc, words, shelf, out, gate) {
        Ok(status) => status,
        Err(stop) => stop.status(),
    }
}
