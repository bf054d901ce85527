// Runs over the stream of a file.
ghost use Rattle.bolt_io.specs.declared.whole.TheConstants.{MOST_BYTES};
ghost use Rattle.std.specs.Prelude.{◌≡◌, ◌+◌, ◌<◌, ◌≤◌, ◌^◌, Ok, [], length, IfOk, OnOk, IfErr};
ghost use Rattle.std.specs.Prelude.{IfSome, IsErrOf};
ghost use Rattle.bolt_io.specs.Told.{left};
ghost use Rattle.batch_steps.specs.Steps.{IsMade, stream_slots};
ghost use Rattle.batch_steps.specs.Course.{opening_of};
ghost use Rattle.command_files.specs.Replied.{Gives, Appended};
ghost use Rattle.command_files.specs.Stops.{BlamesShelf, BlamesSink, IsOfWriting};
ghost use Rattle.batch_run.specs.Ahead.{Streamed};
ghost use Rattle.batch_run.specs.Conducts.{Conducts, world};
ghost use Rattle.report_text.specs.Runs.{run_steps};
ghost use Rattle.engine_stream.specs.Taken.{taken};

use crate::batches::put_batches;
use bolt_base::Gate;
use bolt_io::{Shelf, Sink};
use command_files::{Stop, open, put};
use engine_runs::Progress;
use graph_text::BatchReader;
use std::alloc::Global;
use std::thread::Threads;

// Writes the end of a run, and answers its status.
fn put_end<K: Sink>(alloc: Global, run: &Progress, out: &mut K) -> Result<u8, Stop>
    ensures gives { Gives (run_steps.end run.now) (K.written out.old)
        (K.written out.new) result }
    ensures made { IfOk result IsMade }
    ensures cause { BlamesSink result (K.faults out.old) (K.faults out.new) }
    ensures writing { IfErr result IsOfWriting }
{
    let text = run.end_text(alloc)?;
    put(out, text.as_slice())?;
    Ok(run.status())
}

// Runs over the stream of a slot.
fn run_slot<S: Shelf, K: Sink, R: Threads + Sync, T: Gate + Sync>(
    rt: &R,
    alloc: Global,
    gate: &T,
    slot: u32,
    mut run: Progress,
    shelf: &mut S,
    out: &mut K,
) -> Result<u8, Stop>
    requires slot { slot < S.opened shelf.old }
    requires fresh { taken run ≡ 0 }
    ensures streamed { Streamed run_steps run (S.told shelf.old) (S.told shelf.new) slot
        (K.written out.old) (K.written out.new) result }
    ensures appended { Appended (K.written out.old) (K.written out.new) }
    ensures made { IfOk result IsMade }
    ensures short { OnOk result (IfSome (S.told shelf.old)
        (λ t. length (left t slot) < MOST_BYTES)) }
    ensures end { OnOk result (IfSome (S.told shelf.new) (λ t. left t slot ≡ [])) }
    ensures opened { S.opened shelf.new ≡ S.opened shelf.old }
    ensures too_long { IsErrOf result Stop.TooLong
        → IfSome (S.told shelf.old) (λ t. MOST_BYTES ≤ length (left t slot)) }
    ensures shelf_cause { BlamesShelf result (S.faults shelf.old) (S.faults shelf.new) }
    ensures sink_cause { BlamesSink result (K.faults out.old) (K.faults out.new) }
{
    let mut reader = BatchReader::new(alloc, slot);
    put_batches(rt, alloc, gate, &mut reader, &mut run, shelf, out)?;
    put_end(alloc, &run, out)
}

// Opens a stream, and runs over it.
fn run_file<S: Shelf, K: Sink, R: Threads + Sync, T: Gate + Sync>(
    rt: &R,
    alloc: Global,
    gate: &T,
    stream: &str,
    run: Progress,
    shelf: &mut S,
    out: &mut K,
) -> Result<u8, Stop>
    requires room { S.opened shelf.old < 2 ^ 31 }
    requires fresh { taken run ≡ 0 }
    ensures conducts { Conducts (λ _. Ok (opening_of run_steps run [] stream.now))
        (λ _. []) 1 stream_slots
        (world S.told S.opened S.faults K.written K.faults shelf.old out.old)
        (world S.told S.opened S.faults K.written K.faults shelf.new out.new) result }
    ensures appended { Appended (K.written out.old) (K.written out.new) }
    ensures made { IfOk result IsMade }
{
    let slot = open(shelf, stream)?;
    run_slot(rt, alloc, gate, slot, run, shelf, out)
}

/// Writes an opening text, and then has a run take each batch of a stream, and writes what it
/// answers.
pub fn run_stream<S: Shelf, K: Sink, R: Threads + Sync, T: Gate + Sync>(
    rt: &R,
    alloc: Global,
    gate: &T,
    text: &[u8],
    stream: &str,
    run: Progress,
    shelf: &mut S,
    out: &mut K,
) -> Result<u8, Stop>
    requires room { S.opened shelf.old < 2 ^ 31 }
    requires fresh { taken run ≡ 0 }
    ensures conducts { Conducts (λ _. Ok (opening_of run_steps run text.now stream.now))
        (λ _. []) 1 stream_slots
        (world S.told S.opened S.faults K.written K.faults shelf.old out.old)
        (world S.told S.opened S.faults K.written K.faults shelf.new out.new) result }
    ensures made { IfOk result IsMade }
{
    put(out, text)?;
    run_file(rt, alloc, gate, stream, run, shelf, out)
}
