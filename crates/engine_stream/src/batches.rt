// Takes batches from a reader, and writes what a run answers.
ghost use Rattle.bolt_io.specs.declared.whole.TheConstants.{MOST_BYTES};
ghost use Rattle.std.specs.Prelude.{◌≡◌, ◌+◌, ◌-◌, ◌<◌, ◌≤◌, ◌^◌, length, OnOk};
ghost use Rattle.std.specs.Prelude.{IfErr, IfSome, IsErrOf};
ghost use Rattle.std.specs.Option.{option_map};
ghost use Rattle.bolt_io.specs.Written.{Wrote, WrotePart};
ghost use Rattle.text_lines.specs.Feed.{Advances, IsAtEnd};
ghost use Rattle.graph_text.specs.declared.batch_reader.TheConstants.{MOST_EDITS};
ghost use Rattle.command_files.specs.Replied.{Appended, Leads};
ghost use Rattle.command_files.specs.Stops.{BlamesShelf, BlamesSink, IsOfWriting};
ghost use Rattle.batch_run.specs.Ahead.{reply_ahead, WroteUpTo, texts_within, IsReadStop};
ghost use Rattle.report_text.specs.Runs.{run_steps};
ghost use Rattle.engine_stream.specs.Taken.{taken};

use batch_run::next_batch;
use bolt_base::Gate;
use bolt_io::{Shelf, Sink};
use command_files::{Stop, put};
use engine_runs::Progress;
use graph_text::{BatchReader, BatchText};
use std::alloc::Global;
use std::thread::Threads;

// Has the run take a batch, and writes what it answers.
fn put_batch<K: Sink, R: Threads + Sync, T: Gate + Sync>(
    rt: &R,
    alloc: Global,
    gate: &T,
    run: &mut Progress,
    batch: &BatchText,
    out: &mut K,
) -> Result<(), Stop>
    requires paired { length batch.now.lines ≡ length batch.now.edits }
    requires small { length batch.now.edits ≤ MOST_EDITS }
    requires few { taken run.old < 2 ^ 41 }
    ensures all { OnOk result (Wrote (K.written out.old) (K.written out.new)
        (run_steps.text run.old batch.now)) }
    ensures part { WrotePart (K.written out.old)
        (K.written out.new) (run_steps.text run.old batch.now) }
    ensures next { OnOk result (run.new ≡ run_steps.next run.old batch.now) }
    ensures counted { OnOk result (taken run.new ≡ taken run.old + 1) }
    ensures cause { BlamesSink result (K.faults out.old) (K.faults out.new) }
    ensures writing { IfErr result IsOfWriting }
{
    let text = run.take(rt, alloc, gate, batch)?;
    put(out, text.as_slice())?;
    Ok(())
}

/// Writes what a run answers to each batch that is left, to the end of the stream.
pub fn put_batches<S: Shelf, K: Sink, R: Threads + Sync, T: Gate + Sync>(
    rt: &R,
    alloc: Global,
    gate: &T,
    reader: &mut BatchReader,
    run: &mut Progress,
    shelf: &mut S,
    out: &mut K,
) -> Result<(), Stop>
    requires slot { reader.old.feed.slot < S.opened shelf.old }
    requires numbered { taken run.old ≡ reader.old.batches }
    requires most_batches { reader.old.batches ≤ MOST_BYTES }
    ensures part { IfSome (reply_ahead run_steps run.old (S.told shelf.old) reader.old.feed)
        (λ reply. WrotePart (K.written out.old) (K.written out.new) reply.text) }
    ensures all { OnOk result (WroteUpTo (reply_ahead run_steps run.old
        (S.told shelf.old) reader.old.feed)
        (option_map (λ _. run_steps.end run.new)
        (S.told shelf.new)) (K.written out.old) (K.written out.new)) }
    ensures kept_up { IsReadStop result
        → IfSome (texts_within run_steps run.old (S.told shelf.old)
        reader.old.feed reader.new.feed.taken)
        (λ text. Leads text (K.written out.old) (K.written out.new)) }
    ensures appended { Appended (K.written out.old) (K.written out.new) }
    ensures end { OnOk result (IsAtEnd (S.told shelf.new) reader.new.feed) }
    ensures slot { reader.new.feed.slot ≡ reader.old.feed.slot }
    ensures advances { Advances (S.told shelf.old) (S.told shelf.new) reader.old.feed.slot
        (reader.new.feed.taken - reader.old.feed.taken) }
    ensures later { reader.old.feed.taken ≤ reader.new.feed.taken }
    ensures most { reader.new.feed.taken ≤ MOST_BYTES }
    ensures fewer { OnOk result (reader.new.feed.taken < MOST_BYTES) }
    ensures too_long { IsErrOf result Stop.TooLong → reader.new.feed.taken ≡ MOST_BYTES }
    ensures opened { S.opened shelf.new ≡ S.opened shelf.old }
    ensures shelf_cause { BlamesShelf result (S.faults shelf.old) (S.faults shelf.new) }
    ensures sink_cause { BlamesSink result (K.faults out.old) (K.faults out.new) }
{
    'batches: loop {
        let Some(batch) = next_batch(reader, shelf)? else {
            return Ok(());
        };
        put_batch(rt, alloc, gate, run, &batch, out)?;
    }
}
