// What a live run does before its streams are read.
ghost use Rattle.std.specs.Prelude.{◌≡◌, ◌+◌, ◌<◌, ◌≤◌, ◌^◌, IfErr, IfOk, IfSome, IsOk};
ghost use Rattle.bolt_base.specs.Graph.{IsGood};
ghost use Rattle.cli_words.specs.Ranges.{AreInRange};
ghost use Rattle.cli_words.specs.Words.{texts};
ghost use Rattle.command_course.specs.Still.{both_files, program_count};
ghost use Rattle.command_files.specs.Files.{content};
ghost use Rattle.command_files.specs.Reads.{Reads};
ghost use Rattle.command_files.specs.Stops.{BlamesShelf, IsOfReading};
ghost use Rattle.live_words.specs.Ranges.{IsLiveInRange};
ghost use Rattle.live_opening.specs.Begun.{run_in, IsBegun, OpensRead};
ghost use Rattle.live_opening.specs.Files.{start_slots};
ghost use Rattle.live_opening.specs.Runs.{live_read, live_run, IsLiveRefusal};

use crate::engine::{Begun, open_engine};
use batch_steps::Reply;
use bolt_base::{GraphData, Memory};
use bolt_io::Shelf;
use cli_words::RunOptions;
use command_files::Stop;
use command_opening::read_both;
use live_words::LiveCommand;
use range_check::Accepted;
use std::alloc::Global;
use std::thread::Threads;

// Opens the engine of what was read, or refuses it.
fn open_read<R: Threads + Sync>(
    rt: &R,
    alloc: Global,
    read: Result<(Accepted, GraphData), Reply>,
    options: RunOptions,
) -> Result<Result<Begun, Reply>, Memory>
    requires good { IfOk read (λ both. IsGood both.0.limits both.1) }
    requires refused { IfErr read IsLiveRefusal }
    requires range { AreInRange options }
    ensures run { IfOk result (λ r. live_read options read
        ≡ run_in (λ (b : Begun). b.engine) r) }
    ensures begun { IfOk result (λ r. IfOk r IsBegun) }
    ensures read { IfOk result (OpensRead read) }
{
    match read {
        Ok((accepted, plain)) => open_engine(rt, alloc, accepted, plain, options),
        Err(refusal) => Ok(Err(refusal)),
    }
}

/// Reads the program and the graph of the command, and opens its engine, or tells the reply that
/// refuses the program, the graph or the number of cells, in this order.
pub fn begin<S: Shelf, R: Threads + Sync>(
    rt: &R,
    alloc: Global,
    words: &[String],
    command: &LiveCommand,
    shelf: &mut S,
) -> Result<Result<Begun, Reply>, Stop>
    requires room { S.opened shelf.old < 2 ^ 30 }
    requires range { IsLiveInRange command.now }
    ensures run { IfOk result (λ r. IfSome (S.told shelf.old) (λ t.
        live_run (texts words.now) command.now (content t)
        ≡ run_in (λ (b : Begun). b.engine) r)) }
    ensures begun { IfOk result (λ r. IfOk r IsBegun) }
    ensures status { IfOk result (λ r. IfErr r IsLiveRefusal) }
    ensures reads { let c = command.now in Reads (both_files (texts words.now) c.program c.graph)
        IsOk (program_count c.program + 1) (start_slots c.program) (S.told shelf.old)
        (S.told shelf.new) (S.opened shelf.old) (S.opened shelf.new) result }
    ensures cause { BlamesShelf result (S.faults shelf.old) (S.faults shelf.new) }
    ensures reading { IfErr result IsOfReading }
{
    let read = read_both(alloc, shelf, words, command.program, command.graph)?;
    Ok(open_read(rt, alloc, read, command.options)?)
}
