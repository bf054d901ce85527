// The next batch of a stream.
ghost use Rattle.bolt_io.specs.declared.whole.TheConstants.{MOST_BYTES};
ghost use Rattle.std.specs.Prelude.{◌≡◌, ℕ, ◌+◌, ◌-◌, ◌<◌, ◌≤◌, ◌∷◌, [], length, IfOk};
ghost use Rattle.std.specs.Prelude.{IfErr, OnOk, IfSome, IfNone, IsErrOf};
ghost use Rattle.std.specs.Option.{option_map};
ghost use Rattle.text_lines.specs.Feed.{Advances, IsAtEnd};
ghost use Rattle.graph_text.specs.declared.batch_reader.TheConstants.{MOST_EDITS};
ghost use Rattle.graph_text.specs.BatchCode.{batches_ahead, NoBatchEnds, IsFirstEnded};
ghost use Rattle.graph_text.specs.BatchCode.{IsBatchStuck};
ghost use Rattle.command_files.specs.Stops.{BlamesShelf, IsOfReading};
ghost use Rattle.batch_run.specs.Ahead.{IsReadStop, StandsAt};

use bolt_io::Shelf;
use command_files::Stop;
use graph_text::{BatchReader, BatchText};

/// The next batch, or nothing at the end of the stream.
pub fn next_batch<S: Shelf>(
    reader: &mut BatchReader,
    shelf: &mut S,
) -> Result<Option<BatchText>, Stop>
    requires slot { reader.old.feed.slot < S.opened shelf.old }
    ensures batch { IfOk result (λ r. IfSome r
        (λ b. batches_ahead (S.told shelf.old) reader.old.feed
        ≡ option_map (λ rest. b ∷ rest) (batches_ahead (S.told shelf.new) reader.new.feed))) }
    ensures none { IfOk result (λ r. IfNone r (batches_ahead (S.told shelf.old) reader.old.feed
        ≡ option_map (λ _. []) (S.told shelf.new))) }
    ensures end { IfOk result (λ r. IfNone r (IsAtEnd (S.told shelf.new) reader.new.feed)) }
    ensures first { IfOk result (λ r. IfSome r (λ b. (most : ℕ) → reader.new.feed.taken ≤ most
        → IsFirstEnded b most (S.told shelf.old)
        (S.told shelf.new) reader.old.feed reader.new.feed)) }
    ensures unended { IsReadStop result →
        IfSome (S.told shelf.old) (NoBatchEnds reader.new.feed.taken reader.old.feed) }
    ensures paired { IfOk result (λ r. IfSome r (λ b. length b.lines ≡ length b.edits)) }
    ensures small { IfOk result (λ r. IfSome r (λ b. length b.edits ≤ MOST_EDITS)) }
    ensures one_more { IfOk result (λ r. IfSome r (λ _. reader.new.batches
        ≡ reader.old.batches + 1)) }
    ensures most_batches { reader.new.batches ≤ MOST_BYTES }
    ensures slot { reader.new.feed.slot ≡ reader.old.feed.slot }
    ensures advances { Advances (S.told shelf.old) (S.told shelf.new) reader.old.feed.slot
        (reader.new.feed.taken - reader.old.feed.taken) }
    ensures later { reader.old.feed.taken ≤ reader.new.feed.taken }
    ensures most { reader.new.feed.taken ≤ MOST_BYTES }
    ensures fewer { IfOk result (λ r. IfNone r (reader.new.feed.taken < MOST_BYTES)) }
    ensures too_long { IsErrOf result Stop.TooLong → reader.new.feed.taken ≡ MOST_BYTES }
    ensures stops { IfErr result (StandsAt reader.new.feed) }
    ensures not_stuck { OnOk result (IfSome (S.told shelf.old)
        (λ t. ¬ IsBatchStuck reader.old.feed t)) }
    ensures opened { S.opened shelf.new ≡ S.opened shelf.old }
    ensures cause { BlamesShelf result (S.faults shelf.old) (S.faults shelf.new) }
    ensures reading { IfErr result IsOfReading }
{
    Ok(reader.next(shelf)?)
}
