// make SEED N M B E, and a form
ghost use Rattle.std.specs.Prelude.{◌≡◌, Ok, IfOk};
ghost use Rattle.batch_run.specs.Conducts.{Conducts, world};
ghost use Rattle.cli_words.specs.Lines.{command_of};
ghost use Rattle.cli_words.specs.Ranges.{IsCommandInRange};
ghost use Rattle.cli_words.specs.Words.{texts};
ghost use Rattle.cli_words.specs.declared.command.Command.TheVariants.{Make as MakeCommand};
ghost use Rattle.command_course.specs.Still.{course, files_before, named, opened_with, IsDecided};

use batch_run::put_reply;
use bolt_base::Gate;
use bolt_io::{Shelf, Sink};
use cli_words::MakeForm;
use command_files::Stop;
use made_runs::make_reply;
use std::alloc::Global;
use std::thread::Threads;

/// Makes a graph of so many vertices and drawn pairs and a stream of so many batches of so many
/// edits, and writes the graph, the stream, or the run of the shipped program `rank` on both.
/// Answers the status: that of the run, and else 0. The shelf is left as it is.
pub fn make_command<S: Shelf, K: Sink, R: Threads + Sync, T: Gate + Sync>(
    rt: &R,
    alloc: Global,
    gate: &T,
    words: &[String],
    seed: u64,
    vertices: u32,
    pairs: u32,
    batches: u32,
    edits: u32,
    form: MakeForm,
    _shelf: &S,
    out: &mut K,
) -> Result<u8, Stop>
    requires command { command_of (texts words.now)
        ≡ Ok (MakeCommand seed vertices pairs batches edits form) }
    requires range { IsCommandInRange (MakeCommand seed vertices pairs batches edits form) }
    ensures conducts { Conducts (course (texts words.now)) (files_before (texts words.now))
        (named (texts words.now)) (opened_with (texts words.now))
        (world S.told S.opened S.faults K.written K.faults _shelf.now out.old)
        (world S.told S.opened S.faults K.written K.faults _shelf.now out.new) result }
    ensures decided { IfOk result (IsDecided (texts words.now)) }
{
    let reply = make_reply(rt, alloc, gate, seed, vertices, pairs, batches, edits, form)?;
    put_reply(&reply, out)
}
