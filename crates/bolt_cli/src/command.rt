// The command.
ghost use Rattle.std.specs.Prelude.{◌≡◌, ◌<◌, ◌^◌, Ok, IfOk, IsFalse, IsTrue};
ghost use Rattle.batch_run.specs.Conducts.{Conducts, world};
ghost use Rattle.cli_words.specs.Lines.{command_of};
ghost use Rattle.cli_words.specs.Ranges.{IsCommandInRange};
ghost use Rattle.cli_words.specs.Words.{texts};
ghost use Rattle.command_course.specs.Still.{course, files_before, named, opened_with};
ghost use Rattle.command_course.specs.Still.{IsDecided};
ghost use Rattle.live_words.specs.Lines.{is_live as is_live_of};
ghost use Rattle.bolt_cli.specs.Answers.{Answers};
ghost use Rattle.bolt_cli.specs.AnswersLive.{AnswersLive};

use crate::live::bolt_live;
use crate::refuse::refuse_words;
use bolt_base::Gate;
use bolt_io::{Shelf, Sink};
use cli_words::{Command, read_words};
use command_files::Stop;
use graph_commands::{once_command, run_command};
use live_words::is_live;
use reply_commands::{check_command, make_command};
use std::alloc::Global;
use std::sync::Wait;
use std::thread::Threads;

// Does what a command says.
fn obey<S: Shelf, K: Sink, T: Gate + Sync, R: Threads + Sync>(
    rt: &R,
    alloc: Global,
    words: &[String],
    command: Command,
    shelf: &mut S,
    out: &mut K,
    gate: &T,
) -> Result<u8, Stop>
    requires room { S.opened shelf.old < 2 ^ 30 }
    requires command { command_of (texts words.now) ≡ Ok command }
    requires range { IsCommandInRange command }
    ensures conducts { Conducts (course (texts words.now)) (files_before (texts words.now))
        (named (texts words.now)) (opened_with (texts words.now))
        (world S.told S.opened S.faults K.written K.faults shelf.old out.old)
        (world S.told S.opened S.faults K.written K.faults shelf.new out.new) result }
    ensures decided { IfOk result (IsDecided (texts words.now)) }
{
    match command {
        Command::Run {
            program,
            graph,
            stream,
            options,
        } => run_command(
            rt, alloc, gate, words, program, graph, stream, options, shelf, out,
        ),
        Command::Once {
            program,
            graph,
            options,
        } => once_command(rt, alloc, words, program, graph, options, shelf, out),
        Command::Check { program } => check_command(alloc, words, program, shelf, out),
        Command::Make {
            seed,
            vertices,
            pairs,
            batches,
            edits,
            form,
        } => make_command(
            rt, alloc, gate, words, seed, vertices, pairs, batches, edits, form, shelf, out,
        ),
    }
}

// Judges the words, and does what they say.
fn still<S: Shelf, K: Sink, T: Gate + Sync, R: Threads + Sync>(
    rt: &R,
    alloc: Global,
    words: &[String],
    shelf: &mut S,
    out: &mut K,
    gate: &T,
) -> Result<u8, Stop>
    requires room { S.opened shelf.old < 2 ^ 30 }
    ensures conducts { Conducts (course (texts words.now)) (files_before (texts words.now))
        (named (texts words.now)) (opened_with (texts words.now))
        (world S.told S.opened S.faults K.written K.faults shelf.old out.old)
        (world S.told S.opened S.faults K.written K.faults shelf.new out.new) result }
    ensures decided { IfOk result (IsDecided (texts words.now)) }
{
    match read_words(words) {
        Ok(command) => obey(rt, alloc, words, command, shelf, out, gate),
        Err(refusal) => refuse_words(alloc, refusal, out),
    }
}

/// Runs a command line that needs no waiting, and answers the status of its end. It starts threads,
/// by the handle `rt`, where a command is to have several workers. The word `live` is no command
/// here.
///
/// The words are those after the program's name. `shelf` has the files that they name, and `out`
/// takes the text.
pub fn bolt_still<S: Shelf, K: Sink, T: Gate + Sync, R: Threads + Sync>(
    rt: &R,
    alloc: Global,
    words: &[String],
    shelf: &mut S,
    out: &mut K,
    gate: &T,
) -> u8
    requires slots { S.opened shelf.old < 2 ^ 30 }
    ensures { Answers (texts words.now)
        (world S.told S.opened S.faults K.written K.faults shelf.old out.old)
        (world S.told S.opened S.faults K.written K.faults shelf.new out.new) result }
{
    match still(rt, alloc, words, shelf, out, gate) {
        Ok(status) => status,
        Err(stop) => stop.status(),
    }
}

/// Runs any command line, and answers the status of its end. `live` waits, by the handle `rt`; each
/// other command is passed to `bolt_still` whole.
pub fn bolt<S: Shelf, K: Sink, T: Gate + Sync, R: Wait + Threads + Sync>(
    rt: &R,
    alloc: Global,
    words: &[String],
    shelf: &mut S,
    out: &mut K,
    gate: &T,
) -> u8
    requires slots { S.opened shelf.old < 2 ^ 30 }
    ensures live { IsTrue (is_live_of (texts words.now)) → AnswersLive (texts words.now)
        (world S.told S.opened S.faults K.written K.faults shelf.old out.old)
        (world S.told S.opened S.faults K.written K.faults shelf.new out.new) result }
    ensures still { IsFalse (is_live_of (texts words.now)) → Answers (texts words.now)
        (world S.told S.opened S.faults K.written K.faults shelf.old out.old)
        (world S.told S.opened S.faults K.written K.faults shelf.new out.new) result }
{
    if is_live(words) {
        bolt_live(rt, alloc, words, shelf, out, gate)
    } else {
        bolt_still(rt, alloc, words, shelf, out, gate)
    }
}
