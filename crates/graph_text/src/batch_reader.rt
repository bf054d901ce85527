// The batch reader.
ghost use Rattle.std.specs.Prelude.{◌≡◌, ◌+◌, ◌-◌, ◌<◌, ◌≤◌, ℕ, [], ◌∷◌, is_some, Some, None, Err};
ghost use Rattle.std.specs.Prelude.{Option, length, IfOk, IfErr, OnOk, OnErr, IfSome, IfNone};
ghost use Rattle.std.specs.Prelude.{MatchOption};
ghost use Rattle.std.specs.Option.{option_map};
ghost use Rattle.std.specs.Result.{result_err};
ghost use Rattle.bolt_io.specs.declared.whole.TheConstants.{MOST_BYTES};
ghost use Rattle.text_lines.specs.Feed.{IsAtEnd, fresh_feed};
ghost use Rattle.text_lines.specs.Reading.{FeedReads, IfTurns, IfMoreWanted, IsSpent};
ghost use Rattle.graph_text.specs.declared.batch_reader.TheConstants.{MOST_EDITS};
ghost use Rattle.graph_text.specs.StreamText.{unfinished as unfinished_of};
ghost use Rattle.graph_text.specs.OpenCode.{IsPaired, unopened, begun_at};
ghost use Rattle.graph_text.specs.OpenCode.{with_edit as with_edit_of};
ghost use Rattle.graph_text.specs.OpenCode.{with_unknown as with_unknown_of, with_line};
ghost use Rattle.graph_text.specs.OpenCode.{committed as committed_of};
ghost use Rattle.graph_text.specs.BatchCode.{Reader, batches_ahead, IsBatchStuck, IsFirstEnded};
ghost use Rattle.graph_text.specs.BatchCode.{NoBatchEnds};

use crate::bad_line::BadLine;
use crate::batch_text::{BatchText, OpenBatch};
use crate::stream_lines::{StreamLine, stream_line};
use bolt_base::{Edit, EditList, LineCause, LineList, Memory};
use bolt_io::Shelf;
use std::alloc::Global;
use std::marker::Model;
use text_lines::{FeedError, LineFeed};

/// How many edits a batch has at most.
pub const MOST_EDITS: usize = 1_000_000;

impl OpenBatch {
    /// A batch of which no line was read.
    fn new(alloc: Global) -> OpenBatch
        ensures { result ≡ unopened }
    {
        OpenBatch {
            first_line: None,
            edits: EditList::new(alloc),
            lines: LineList::new(alloc),
            bad: None,
        }
    }

    // Notes the first line.
    fn begin(&mut self, number: u64)
        ensures { self.new ≡ begun_at self.old number }
    {
        if self.first_line.is_none() {
            self.first_line = Some(number);
        }
    }

    // Takes an edit in.
    #[tactic(auto, unfolding(crate::specs::OpenCode::with_edit))]
    fn take_edit(&mut self, number: u64, edit: Edit) -> Result<(), Memory>
        requires paired { IsPaired self.old }
        ensures taken { OnOk result (self.new ≡ with_edit_of self.old number edit) }
        ensures paired { OnOk result (IsPaired self.new) }
    {
        if self.bad.is_some() {
            return Ok(());
        }
        self.begin(number);
        if self.edits.len() >= MOST_EDITS {
            self.bad = Some(BadLine {
                line: number,
                cause: LineCause::Size,
            });
            return Ok(());
        }
        self.edits.push(edit)?;
        self.lines.push(number)?;
        Ok(())
    }

    // Takes in a line that has none of the forms.
    #[tactic(auto, unfolding(crate::specs::OpenCode::with_unknown))]
    fn take_unknown(&mut self, number: u64)
        requires paired { IsPaired self.old }
        ensures taken { self.new ≡ with_unknown_of self.old number }
        ensures paired { IsPaired self.new }
    {
        if self.bad.is_some() {
            return;
        }
        self.begin(number);
        self.bad = Some(BadLine {
            line: number,
            cause: LineCause::Syntax,
        });
    }

    // Takes in a line that ends no batch.
    #[tactic(auto, unfolding(crate::specs::OpenCode::with_line))]
    fn take_line(&mut self, number: u64, line: StreamLine) -> Result<(), Memory>
        requires paired { IsPaired self.old }
        ensures taken { OnOk result (self.new ≡ with_line self.old number line) }
        ensures paired { OnOk result (IsPaired self.new) }
    {
        match line {
            StreamLine::Edit(edit) => {
                self.take_edit(number, edit)?;
                Ok(())
            }
            StreamLine::Unknown => {
                self.take_unknown(number);
                Ok(())
            }
            StreamLine::Empty | StreamLine::Commit => Ok(()),
        }
    }

    // The batch that a `commit` ends.
    #[tactic(auto, unfolding(crate::specs::OpenCode::committed))]
    fn commit(self, number: u64) -> BatchText
        requires paired { IsPaired self }
        ensures batch { result ≡ committed_of self number }
        ensures few { length result.edits ≤ MOST_EDITS }
        ensures paired { length result.lines ≡ length result.edits }
    {
        BatchText {
            first_line: self.first_line.unwrap_or(number),
            edits: self.edits,
            lines: self.lines,
            bad: self.bad,
        }
    }

    // The batch that has no end, where one of its lines isn't empty.
    fn leave_open(self, alloc: Global) -> Option<BatchText>
        ensures batch { MatchOption result (unfinished_of self.first_line ≡ [])
            (λ b. unfinished_of self.first_line ≡ b ∷ []) }
        ensures few { IfSome result (λ b. length b.edits ≤ MOST_EDITS) }
        ensures paired { IfSome result (λ b. length b.lines ≡ length b.edits) }
    {
        let first_line = self.first_line?;
        Some(BatchText {
            first_line,
            edits: EditList::new(alloc),
            lines: LineList::new(alloc),
            bad: Some(BadLine {
                line: first_line,
                cause: LineCause::Unfinished,
            }),
        })
    }
}

/// The next batch of a feed, or None where no further batch is in the text, which was read to its
/// end.
fn read_batch<S: Shelf>(
    alloc: Global,
    feed: &mut LineFeed,
    shelf: &mut S,
) -> Result<Option<BatchText>, FeedError>
    requires slot { feed.old.slot < S.opened shelf.old }
    ensures batch { IfOk result (λ r. IfSome r (λ b. batches_ahead (S.told shelf.old) feed.old
        ≡ option_map (λ rest. b ∷ rest) (batches_ahead (S.told shelf.new) feed.new))) }
    ensures none { IfOk result (λ r. IfNone r (batches_ahead (S.told shelf.old) feed.old
        ≡ option_map (λ _. []) (S.told shelf.new))) }
    ensures end { IfOk result (λ r. IfNone r (IsAtEnd (S.told shelf.new) feed.new)) }
    ensures few { IfOk result (λ r. IfSome r (λ b. length b.edits ≤ MOST_EDITS)) }
    ensures paired { IfOk result (λ r. IfSome r (λ b. length b.lines ≡ length b.edits)) }
    ensures more_lines { IfOk result (λ r. IfSome r (λ _. feed.old.lines + 1 ≤ feed.new.lines)) }
    ensures reads { FeedReads S.told S.opened S.faults shelf.old shelf.new feed.old feed.new
        (result_err result) }
    ensures fewer { IfOk result (λ r. IfNone r (feed.new.taken < MOST_BYTES)) }
    ensures first { IfOk result (λ r. IfSome r (λ b. (most : ℕ) → feed.new.taken ≤ most
        → IsFirstEnded b most (S.told shelf.old) (S.told shelf.new) feed.old feed.new)) }
    ensures unended { IfErr result (IfMoreWanted
        (IfSome (S.told shelf.old) (NoBatchEnds feed.new.taken feed.old))) }
    ensures due { IsSpent feed.old → result ≡ Err (FeedError.Turns MOST_BYTES) }
    ensures stuck { IfErr result
        (IfTurns (λ _. IfSome (S.told shelf.old) (IsBatchStuck feed.old))) }
    ensures not_stuck { OnOk result (IfSome (S.told shelf.old) (λ t. ¬ IsBatchStuck feed.old t)) }
{
    let mut open = OpenBatch::new(alloc);
    'lines: loop {
        let Some(found) = feed.find(shelf)? else {
            return Ok(open.leave_open(alloc));
        };
        let number = feed.lines() + 1;
        let line = stream_line(feed.text(found));
        if let StreamLine::Commit = line {
            feed.skip(found);
            return Ok(Some(open.commit(number)));
        }
        open.take_line(number, line)?;
        feed.skip(found);
    }
}

/// The batches of a slot, one by one.
#[derive(Drop)]
pub struct BatchReader {
    alloc: Global,
    feed: LineFeed,
    batches: u64,
}

impl Model for BatchReader {
    ghost use Rattle.std.specs.Prelude.{◌≤◌};
    ghost use Rattle.graph_text.specs.StreamText.{unfinished as unfinished_of};
    ghost use Rattle.graph_text.specs.OpenCode.{IsPaired, unopened, begun_at};
    ghost use Rattle.graph_text.specs.OpenCode.{with_edit as with_edit_of};
    ghost use Rattle.graph_text.specs.OpenCode.{with_unknown as with_unknown_of, with_line};
    ghost use Rattle.graph_text.specs.OpenCode.{committed as committed_of};
    ghost use Rattle.graph_text.specs.BatchCode.{Reader};

    ghost Value = { Reader };

    ghost view = { λ r. record { feed = r.feed; batches = r.batches } };

    ghost invariant = { λ r. r.batches ≤ r.feed.lines };
}

impl BatchReader {
    /// A reader of the batches of a slot. It takes no memory.
    pub fn new(alloc: Global, slot: u32) -> BatchReader
        ensures { result ≡ record { feed = fresh_feed slot; batches = 0 } }
    {
        BatchReader {
            alloc,
            feed: LineFeed::new(alloc, slot),
            batches: 0,
        }
    }

    /// The next batch, or None exactly where no further batch is in the text, which was read to its
    /// end. After an error the
    /// batch that was begun is lost. `Turns` comes exactly where 2^40 bytes were taken, no line
    /// that ends in them ends the
    /// batch, and another read is needed.
    pub fn next<S: Shelf>(&mut self, shelf: &mut S) -> Result<Option<BatchText>, FeedError>
        requires slot { self.old.feed.slot < S.opened shelf.old }
        ensures batch { IfOk result (λ r. IfSome r
            (λ b. batches_ahead (S.told shelf.old) self.old.feed
            ≡ option_map (λ rest. b ∷ rest) (batches_ahead (S.told shelf.new) self.new.feed))) }
        ensures none { IfOk result (λ r. IfNone r (batches_ahead (S.told shelf.old) self.old.feed
            ≡ option_map (λ _. []) (S.told shelf.new))) }
        ensures end { IfOk result (λ r. IfNone r (IsAtEnd (S.told shelf.new) self.new.feed)) }
        ensures few { IfOk result (λ r. IfSome r (λ b. length b.edits ≤ MOST_EDITS)) }
        ensures paired { IfOk result (λ r. IfSome r (λ b. length b.lines ≡ length b.edits)) }
        ensures one_more { IfOk result (λ r. MatchOption r (self.new.batches ≡ self.old.batches)
            (λ _. self.new.batches ≡ self.old.batches + 1)) }
        ensures no_more { OnErr result (self.new.batches ≡ self.old.batches) }
        ensures most_batches { self.new.batches ≤ MOST_BYTES }
        ensures reads { FeedReads S.told S.opened S.faults shelf.old shelf.new
            self.old.feed self.new.feed (result_err result) }
        ensures fewer { IfOk result (λ r. IfNone r (self.new.feed.taken < MOST_BYTES)) }

        // Of the batches that ended in the bytes taken it is the first; at an error of reading none
        // had.
        ensures first { IfOk result (λ r. IfSome r (λ b. (most : ℕ) → self.new.feed.taken ≤ most
            → IsFirstEnded b most (S.told shelf.old) (S.told shelf.new) self.old.feed
            self.new.feed)) }
        ensures unended { IfErr result (IfMoreWanted
            (IfSome (S.told shelf.old) (NoBatchEnds self.new.feed.taken self.old.feed))) }

        // `Turns` comes exactly where another read than the last that may be is needed.
        ensures due { IsSpent self.old.feed → result ≡ Err (FeedError.Turns MOST_BYTES) }
        ensures stuck { IfErr result
            (IfTurns (λ _. IfSome (S.told shelf.old) (IsBatchStuck self.old.feed))) }
        ensures not_stuck { OnOk result
            (IfSome (S.told shelf.old) (λ t. ¬ IsBatchStuck self.old.feed t)) }
    {
        let batch = read_batch(self.alloc, &mut self.feed, shelf)?;
        if batch.is_some() {
            self.batches += 1;
        }
        Ok(batch)
    }
}
