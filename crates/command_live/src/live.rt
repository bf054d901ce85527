// live PROGRAM GRAPH --stream=FILE.. --ask=FILE..
ghost use Rattle.std.specs.Prelude.{◌<◌, ◌^◌, IfErr, IfOk, IfSome};
ghost use Rattle.batch_run.specs.Conducts.{world};
ghost use Rattle.batch_steps.specs.Steps.{IsMade};
ghost use Rattle.cli_words.specs.Words.{texts};
ghost use Rattle.command_files.specs.Files.{content};
ghost use Rattle.command_files.specs.Reads.{Reads};
ghost use Rattle.command_files.specs.Stops.{BlamesShelf, IsOfReading};
ghost use Rattle.live_opening.specs.Files.{live_count, live_files};
ghost use Rattle.live_words.specs.Ranges.{IsLiveInRange};
ghost use Rattle.command_live.specs.ConductsLive.{ConductsLive};
ghost use Rattle.command_live.specs.Replies.{slots_with, IsOfLive, MayGive};

use crate::reply::reply_to;
use batch_run::put_reply;
use batch_steps::Reply;
use bolt_base::Gate;
use bolt_io::{Shelf, Sink};
use command_files::Stop;
use live_opening::open_live;
use live_words::LiveCommand;
use std::alloc::Global;
use std::sync::Wait;
use std::thread::Threads;

// Reads the files of the command, makes its run, and tells the reply.
fn read_reply<S: Shelf, R: Threads + Wait + Sync, T: Gate + Sync>(
    rt: &R,
    alloc: Global,
    gate: &T,
    words: &[String],
    command: &LiveCommand,
    shelf: &mut S,
) -> Result<Reply, Stop>
    requires room { S.opened shelf.old < 2 ^ 30 }
    requires range { IsLiveInRange command.now }
    ensures reply { IfOk result (λ reply. IfSome (S.told shelf.old)
        (λ t. MayGive (texts words.now) command.now (content t) reply)) }
    ensures status { IfOk result (λ reply. IsOfLive reply.status) }
    ensures reads { Reads (live_files (texts words.now) command.now)
        (λ reply. IsMade reply.status) (live_count command.now)
        (λ reply. slots_with command.now reply.status) (S.told shelf.old) (S.told shelf.new)
        (S.opened shelf.old) (S.opened shelf.new) result }
    ensures cause { BlamesShelf result (S.faults shelf.old) (S.faults shelf.new) }
    ensures reading { IfErr result IsOfReading }
{
    let opened = open_live(rt, alloc, words, command, shelf)?;
    Ok(reply_to(rt, alloc, gate, opened)?)
}

/// Opens a program on a graph, makes the batches of several streams as they come, answers the
/// questions of several files meanwhile, and writes the text of it all at the end. Answers the
/// status: 0, 1 where a batch is refused, 3 where the program is, and 4 where the graph is.
pub fn live_command<S: Shelf, K: Sink, R: Threads + Wait + Sync, T: Gate + Sync>(
    rt: &R,
    alloc: Global,
    gate: &T,
    words: &[String],
    command: &LiveCommand,
    shelf: &mut S,
    out: &mut K,
) -> Result<u8, Stop>
    requires room { S.opened shelf.old < 2 ^ 30 }
    requires range { IsLiveInRange command.now }
    ensures conducts { ConductsLive (MayGive (texts words.now) command.now)
        (live_files (texts words.now) command.now) (live_count command.now)
        (slots_with command.now)
        (world S.told S.opened S.faults K.written K.faults shelf.old out.old)
        (world S.told S.opened S.faults K.written K.faults shelf.new out.new) result }
    ensures decided { IfOk result IsOfLive }
{
    let reply = read_reply(rt, alloc, gate, words, command, shelf)?;
    put_reply(&reply, out)
}
