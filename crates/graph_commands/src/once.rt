// once PROGRAM GRAPH
ghost use Rattle.std.specs.Prelude.{◌≡◌, ◌+◌, ◌<◌, ◌≤◌, ◌^◌, Ok, Err, IfErr, IfOk, IfSome};
ghost use Rattle.batch_run.specs.Conducts.{Conducts, world};
ghost use Rattle.batch_steps.specs.Steps.{IsMade};
ghost use Rattle.bolt_base.specs.Graph.{IsGood};
ghost use Rattle.cli_words.specs.Lines.{command_of};
ghost use Rattle.cli_words.specs.Ranges.{AreInRange};
ghost use Rattle.cli_words.specs.Words.{texts};
ghost use Rattle.cli_words.specs.declared.command.Command.TheVariants.{Once as OnceCommand};
ghost use Rattle.command_course.specs.Still.{both_files, course, files_before, graph_slots, named};
ghost use Rattle.command_course.specs.Still.{once_course, opened_with, program_count, IsDecided};
ghost use Rattle.command_files.specs.Files.{content};
ghost use Rattle.command_files.specs.Reads.{Reads};
ghost use Rattle.command_files.specs.Stops.{BlamesShelf, IsOfReading};
ghost use Rattle.graph_commands.specs.Opened.{once_read, IsOfOnce, RepliesToRead};

use batch_run::put_reply;
use batch_steps::Reply;
use bolt_base::{GraphData, Memory};
use bolt_io::{Shelf, Sink};
use cli_words::{ProgramWord, RunOptions};
use command_files::Stop;
use command_opening::read_both;
use once_run::once_text;
use range_check::Accepted;
use std::alloc::Global;
use std::thread::Threads;

// What the program gives on the graph, or the reply that refuses one of them.
fn reply_to<R: Threads + Sync>(
    rt: &R,
    alloc: Global,
    read: Result<(Accepted, GraphData), Reply>,
    options: RunOptions,
) -> Result<Reply, Memory>
    requires good { IfOk read (λ both. IsGood both.0.limits both.1) }
    requires range { AreInRange options }
    ensures reply { IfOk result (λ reply. once_read options read ≡ Err reply) }
    ensures read { IfOk result (RepliesToRead read) }
{
    match read {
        Ok((accepted, plain)) => Ok(Reply {
            text: once_text(rt, alloc, &accepted, &plain, options.workers, options.show)?,
            status: 0,
        }),
        Err(refusal) => Ok(refusal),
    }
}

// Reads the program and the graph, and tells the reply to them.
fn read_reply<S: Shelf, R: Threads + Sync>(
    rt: &R,
    alloc: Global,
    words: &[String],
    program: ProgramWord,
    graph: u32,
    options: RunOptions,
    shelf: &mut S,
) -> Result<Reply, Stop>
    requires room { S.opened shelf.old < 2 ^ 30 }
    requires place { 1 ≤ program.at }
    requires graph_place { 1 ≤ graph }
    requires range { AreInRange options }
    ensures course { IfOk result (λ reply. IfSome (S.told shelf.old)
        (λ t. once_course (texts words.now) program graph options (content t) ≡ Err reply)) }
    ensures status { IfOk result (λ reply. IsOfOnce reply.status) }
    ensures reads { Reads (both_files (texts words.now) program graph)
        (λ reply. IsMade reply.status) (program_count program + 1)
        (λ reply. program_count program + graph_slots reply.status)
        (S.told shelf.old) (S.told shelf.new) (S.opened shelf.old) (S.opened shelf.new) result }
    ensures cause { BlamesShelf result (S.faults shelf.old) (S.faults shelf.new) }
    ensures reading { IfErr result IsOfReading }
{
    let read = read_both(alloc, shelf, words, program, graph)?;
    Ok(reply_to(rt, alloc, read, options)?)
}

/// Runs a program once on a graph, and writes what it gives. Answers the status: 0, or 3 where
/// the program is refused, and 4 where the graph is.
pub fn once_command<S: Shelf, K: Sink, R: Threads + Sync>(
    rt: &R,
    alloc: Global,
    words: &[String],
    program: ProgramWord,
    graph: u32,
    options: RunOptions,
    shelf: &mut S,
    out: &mut K,
) -> Result<u8, Stop>
    requires room { S.opened shelf.old < 2 ^ 30 }
    requires place { 1 ≤ program.at }
    requires graph_place { 1 ≤ graph }
    requires range { AreInRange options }
    requires command { command_of (texts words.now) ≡ Ok (OnceCommand program graph options) }
    ensures conducts { Conducts (course (texts words.now)) (files_before (texts words.now))
        (named (texts words.now)) (opened_with (texts words.now))
        (world S.told S.opened S.faults K.written K.faults shelf.old out.old)
        (world S.told S.opened S.faults K.written K.faults shelf.new out.new) result }
    ensures decided { IfOk result (IsDecided (texts words.now)) }
{
    let reply = read_reply(rt, alloc, words, program, graph, options, shelf)?;
    put_reply(&reply, out)
}
