// run PROGRAM GRAPH STREAM
ghost use Rattle.std.specs.Prelude.{◌≡◌, ◌+◌, ◌<◌, ◌≤◌, ◌^◌, List, ℕ, Ok, IfErr, IfOk, IfSome};
ghost use Rattle.batch_run.specs.Conducts.{Conducts, world};
ghost use Rattle.batch_run.specs.Opened.{course as course_of, EndsWith, IsReady, IsRun};
ghost use Rattle.bolt_base.specs.Graph.{IsGood};
ghost use Rattle.cli_words.specs.Lines.{command_of};
ghost use Rattle.cli_words.specs.Ranges.{AreInRange};
ghost use Rattle.cli_words.specs.Words.{texts, word_at as word_at_of};
ghost use Rattle.cli_words.specs.declared.command.Command.TheVariants.{Run as RunCommand};
ghost use Rattle.command_course.specs.Still.{both_files, course, files_before, named, opened_with};
ghost use Rattle.command_course.specs.Still.{program_count, run_course, IsDecided};
ghost use Rattle.command_files.specs.Files.{content};
ghost use Rattle.command_files.specs.Reads.{Reads};
ghost use Rattle.command_files.specs.Stops.{BlamesShelf, IsOfReading};
ghost use Rattle.engine_stream.specs.Taken.{taken};
ghost use Rattle.report_text.specs.Runs.{Run, run_steps};
ghost use Rattle.graph_commands.specs.Opened.{opened_slots, opening_read, IsOfRun, IsRefusal};
ghost use Rattle.graph_commands.specs.Opened.{OpensRead};

use batch_run::Opened;
use batch_steps::Reply;
use bolt_base::{Gate, GraphData, Memory};
use bolt_io::{Shelf, Sink};
use cli_words::{ProgramWord, RunOptions};
use command_files::Stop;
use command_opening::{read_both, word_at};
use engine_runs::Progress;
use engine_stream::finish_opened;
use range_check::Accepted;
use run_opening::open_on;
use std::alloc::Global;
use std::thread::Threads;

// Opens the run of what was read, or refuses it.
fn open_read<R: Threads + Sync>(
    rt: &R,
    alloc: Global,
    read: Result<(Accepted, GraphData), Reply>,
    options: RunOptions,
) -> Result<Opened<Progress>, Memory>
    requires good { IfOk read (λ both. IsGood both.0.limits both.1) }
    requires refused { IfErr read IsRefusal }
    requires range { AreInRange options }
    ensures course { IfOk result (λ opened. (stream : List ℕ) →
        course_of (λ (r : Run). r) run_steps stream opened ≡ opening_read options read stream) }
    ensures ready { IfOk result (IsReady taken) }
    ensures read { IfOk result (OpensRead read) }
{
    match read {
        Ok((accepted, plain)) => open_on(rt, alloc, accepted, plain, options),
        Err(refusal) => Ok(Opened::Refused(refusal)),
    }
}

// Reads the program and the graph, and opens the run or refuses it.
fn open_command<S: Shelf, R: Threads + Sync>(
    rt: &R,
    alloc: Global,
    words: &[String],
    program: ProgramWord,
    graph: u32,
    options: RunOptions,
    shelf: &mut S,
) -> Result<Opened<Progress>, Stop>
    requires room { S.opened shelf.old < 2 ^ 30 }
    requires place { 1 ≤ program.at }
    requires graph_place { 1 ≤ graph }
    requires range { AreInRange options }
    ensures course { IfOk result (λ opened. IfSome (S.told shelf.old) (λ t. (stream : ℕ) →
        course_of (λ (r : Run). r) run_steps (word_at_of (texts words.now) stream) opened
        ≡ run_course (texts words.now) program graph stream options (content t))) }
    ensures ready { IfOk result (IsReady taken) }
    ensures ends { IfOk result (λ opened. (s : ℕ) → EndsWith opened s → IsOfRun s) }
    ensures reads { Reads (both_files (texts words.now) program graph) IsRun
        (program_count program + 1) (opened_slots program) (S.told shelf.old) (S.told shelf.new)
        (S.opened shelf.old) (S.opened shelf.new) result }
    ensures cause { BlamesShelf result (S.faults shelf.old) (S.faults shelf.new) }
    ensures reading { IfErr result IsOfReading }
{
    let read = read_both(alloc, shelf, words, program, graph)?;
    Ok(open_read(rt, alloc, read, options)?)
}

/// Runs a program on a graph over a stream. Answers the status: 0, 1 where a batch is refused, 3
/// where the program is, and 4 where the graph is.
pub fn run_command<S: Shelf, K: Sink, R: Threads + Sync, T: Gate + Sync>(
    rt: &R,
    alloc: Global,
    gate: &T,
    words: &[String],
    program: ProgramWord,
    graph: u32,
    stream: u32,
    options: RunOptions,
    shelf: &mut S,
    out: &mut K,
) -> Result<u8, Stop>
    requires room { S.opened shelf.old < 2 ^ 30 }
    requires place { 1 ≤ program.at }
    requires graph_place { 1 ≤ graph }
    requires stream_place { 1 ≤ stream }
    requires range { AreInRange options }
    requires command { command_of (texts words.now)
        ≡ Ok (RunCommand program graph stream options) }
    ensures conducts { Conducts (course (texts words.now)) (files_before (texts words.now))
        (named (texts words.now)) (opened_with (texts words.now))
        (world S.told S.opened S.faults K.written K.faults shelf.old out.old)
        (world S.told S.opened S.faults K.written K.faults shelf.new out.new) result }
    ensures decided { IfOk result (IsDecided (texts words.now)) }
{
    let opened = open_command(rt, alloc, words, program, graph, options, shelf)?;
    finish_opened(rt, alloc, gate, opened, word_at(words, stream), shelf, out)
}
