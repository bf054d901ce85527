// Reads streams.
ghost use Rattle.bolt_io.specs.declared.whole.TheConstants.{MOST_BYTES};
ghost use Rattle.std.specs.Prelude.{◌≡◌, ◌+◌, ◌-◌, ◌<◌, ◌≤◌, ◌^◌, ◌++◌, ◌∷◌, [], length, map};
ghost use Rattle.std.specs.Prelude.{IfErr, IfOk, IfSome, IsErrOf, OnOk, ⊤};
ghost use Rattle.std.specs.List.{All};
ghost use Rattle.text_lines.specs.Feed.{Advances, IsAtEnd, readable};
ghost use Rattle.graph_text.specs.BatchCode.{batches_ahead};
ghost use Rattle.graph_text.specs.StreamText.{batches};
ghost use Rattle.batch_steps.specs.Files.{stream_file};
ghost use Rattle.command_files.specs.Files.{content};
ghost use Rattle.command_files.specs.Reads.{Reads};
ghost use Rattle.command_files.specs.Stops.{BlamesShelf, IsOfReading};
ghost use Rattle.live_streams.specs.Ends.{ReadsToEnd};
ghost use Rattle.live_course.specs.Made.{AreSound, IsSound};
ghost use Rattle.live_streams.specs.Texts.{streams_of, whole_files};

use batch_run::next_batch;
use bolt_base::Items;
use bolt_io::Shelf;
use command_files::{Stop, open};
use graph_text::{BatchReader, BatchText};
use std::alloc::Global;

/// The batches of a stream, in order.
pub type StreamBatches = Items<BatchText>;

/// The batches of each of some streams.
pub type StreamFiles = Items<StreamBatches>;

// Appends the batches that are still to come.
fn take_batches<S: Shelf>(
    batches: &mut StreamBatches,
    reader: &mut BatchReader,
    shelf: &mut S,
) -> Result<(), Stop>
    requires slot { reader.old.feed.slot < S.opened shelf.old }
    requires most_batches { reader.old.batches ≤ MOST_BYTES }
    ensures read { OnOk result (IfSome (batches_ahead (S.told shelf.old) reader.old.feed)
        (λ more. batches.new ≡ batches.old ++ more)) }
    ensures sound { OnOk result (All IsSound batches.old → All IsSound batches.new) }
    ensures end { OnOk result (IsAtEnd (S.told shelf.new) reader.new.feed) }
    ensures slot { reader.new.feed.slot ≡ reader.old.feed.slot }
    ensures advances { Advances (S.told shelf.old) (S.told shelf.new) reader.old.feed.slot
        (reader.new.feed.taken - reader.old.feed.taken) }
    ensures later { reader.old.feed.taken ≤ reader.new.feed.taken }
    ensures most { reader.new.feed.taken ≤ MOST_BYTES }
    ensures fewer { OnOk result (reader.new.feed.taken < MOST_BYTES) }
    ensures too_long { IsErrOf result Stop.TooLong → reader.new.feed.taken ≡ MOST_BYTES }
    ensures opened { S.opened shelf.new ≡ S.opened shelf.old }
    ensures cause { BlamesShelf result (S.faults shelf.old) (S.faults shelf.new) }
    ensures reading { IfErr result IsOfReading }
{
    'batches: loop {
        let Some(batch) = next_batch(reader, shelf)? else {
            return Ok(());
        };
        batches.push(batch)?;
    }
}

// The batches of a slot, which is read to its end.
fn load_batches<S: Shelf>(alloc: Global, shelf: &mut S, slot: u32) -> Result<StreamBatches, Stop>
    requires { slot < S.opened shelf.old }
    ensures batches { IfOk result (λ bs. IfSome (S.told shelf.old)
        (λ t. bs ≡ batches (readable t slot))) }
    ensures sound { IfOk result (All IsSound) }
    ensures reads { ReadsToEnd (S.told shelf.old) (S.told shelf.new)
        (S.opened shelf.old) (S.opened shelf.new) slot result }
    ensures cause { BlamesShelf result (S.faults shelf.old) (S.faults shelf.new) }
    ensures reading { IfErr result IsOfReading }
{
    let mut batches = StreamBatches::new(alloc);
    let mut reader = BatchReader::new(alloc, slot);
    take_batches(&mut batches, &mut reader, shelf)?;
    Ok(batches)
}

// The batches of a file.
fn read_stream<S: Shelf>(alloc: Global, shelf: &mut S, name: &str) -> Result<StreamBatches, Stop>
    requires { S.opened shelf.old < 2 ^ 31 }
    ensures batches { IfOk result (λ bs. IfSome (S.told shelf.old)
        (λ t. bs ≡ batches (content t name.now))) }
    ensures sound { IfOk result (All IsSound) }
    ensures reads { Reads (λ c. stream_file c name.now ∷ []) (λ _. ⊤) 1 (λ _. 1)
        (S.told shelf.old) (S.told shelf.new) (S.opened shelf.old) (S.opened shelf.new) result }
    ensures cause { BlamesShelf result (S.faults shelf.old) (S.faults shelf.new) }
    ensures reading { IfErr result IsOfReading }
{
    let slot = open(shelf, name)?;
    load_batches(alloc, shelf, slot)
}

/// The batches of each file of these names, in order; each file is read to its end.
pub fn read_stream_files<S: Shelf>(
    alloc: Global,
    shelf: &mut S,
    names: &[&str],
) -> Result<StreamFiles, Stop>
    requires { S.opened shelf.old + length names.now ≤ 2 ^ 31 }
    ensures batches { IfOk result (λ all. IfSome (S.told shelf.old)
        (λ t. all ≡ streams_of (map (λ n. n.now) names.now) (content t))) }
    ensures sound { IfOk result AreSound }
    ensures count { IfOk result (λ all. length all ≡ length names.now) }
    ensures reads { Reads (whole_files (map (λ n. n.now) names.now)) (λ _. ⊤) (length names.now)
        (λ _. length names.now) (S.told shelf.old) (S.told shelf.new)
        (S.opened shelf.old) (S.opened shelf.new) result }
    ensures cause { BlamesShelf result (S.faults shelf.old) (S.faults shelf.new) }
    ensures reading { IfErr result IsOfReading }
{
    let mut all = StreamFiles::new(alloc);
    for name in names {
        let batches = read_stream(alloc, shelf, name)?;
        all.push(batches)?;
    }
    Ok(all)
}
