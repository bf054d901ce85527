// The graph reader.
ghost use Rattle.std.specs.Prelude.{◌≡◌, ◌+◌, ◌<◌, pos, Ok, Err, [], IfOk, IfErr, OnOk};
ghost use Rattle.std.specs.Prelude.{IfSome, IsOk};
ghost use Rattle.std.specs.Option.{option_map};
ghost use Rattle.bolt_base.specs.Graph.{IsBetween, IsGood};
ghost use Rattle.bolt_io.specs.declared.whole.TheConstants.{MOST_BYTES};
ghost use Rattle.bolt_io.specs.Told.{left};
ghost use Rattle.text_lines.specs.Feed.{IsAtEnd, MeetsLimit, ahead, ended_ahead, ended_within};
ghost use Rattle.text_lines.specs.Feed.{readable};
ghost use Rattle.text_lines.specs.Reading.{FeedReads};
ghost use Rattle.graph_text.specs.GraphText.{graph_of, draft_after};
ghost use Rattle.graph_text.specs.DraftGood.{Grows};
ghost use Rattle.graph_text.specs.DraftCode.{draft_of};
ghost use Rattle.graph_text.specs.ReadCode.{EndsInHand, ReadsGoodLines};
ghost use Rattle.graph_text.specs.Refusals.{IfLine, IfMoreWanted, ReadsGraph, stopped_by};

use crate::graph_draft::GraphDraft;
use crate::graph_lines::graph_line;
use bolt_base::{GraphData, Limits, LineCause, Memory};
use bolt_io::{Shelf, ShelfFault};
use std::alloc::Global;
use text_lines::{FeedError, LineFeed};

/// Why a text gave no graph.
#[derive(Clone, Copy, Debug, PartialEq, Eq)]
pub enum GraphRefusal {
    /// The first bad line, by its number from 1, and why it is bad.
    Line { number: u64, cause: LineCause },
    /// The shelf failed, and counted it.
    Shelf(ShelfFault),
    /// So many bytes were taken, the most that are, and another read is needed.
    Turns { taken: u64 },
    /// Memory was wanting.
    Memory,
}

impl From<Memory> for GraphRefusal {
    ghost use Rattle.std.specs.Prelude.{◌≡◌};
    ghost use Rattle.graph_text.specs.declared.graph.GraphRefusal.TheVariants.{Memory as NoMemory};

    ghost from_gives = { λ _ e. e ≡ NoMemory };

    fn from(_: Memory) -> Self {
        GraphRefusal::Memory
    }
}

impl From<FeedError> for GraphRefusal {
    ghost use Rattle.std.specs.Prelude.{◌≡◌};
    ghost use Rattle.graph_text.specs.Refusals.{refusal_of};

    ghost from_gives = { λ f e. e ≡ refusal_of f };

    fn from(error: FeedError) -> Self {
        match error {
            FeedError::Shelf(fault) => GraphRefusal::Shelf(fault),
            FeedError::Turns { taken } => GraphRefusal::Turns { taken },
            FeedError::Memory => GraphRefusal::Memory,
        }
    }
}

/// Takes the lines of a text in, up to the first bad one.
fn read_lines<S: Shelf>(
    draft: &mut GraphDraft,
    feed: &mut LineFeed,
    shelf: &mut S,
    limits: &Limits,
) -> Result<(), GraphRefusal>
    requires slot { feed.old.slot < S.opened shelf.old }
    ensures read { OnOk result (IfSome (ahead (S.told shelf.old) feed.old) (λ lines.
        draft_after limits.now (draft_of draft.old) (feed.old.lines + 1) lines
        ≡ Ok (draft_of draft.new))) }
    ensures bad { IfErr result (IfLine
        (λ number cause. IfSome (ahead (S.told shelf.old) feed.old) (λ lines.
        draft_after limits.now (draft_of draft.old) (feed.old.lines + 1) lines
        ≡ Err (record { line = number; cause = cause })))) }
    ensures made { OnOk result (Grows limits.now (draft_of draft.old) (draft_of draft.new)) }
    ensures end { OnOk result (IsAtEnd (S.told shelf.new) feed.new) }
    ensures reads { FeedReads S.told S.opened S.faults shelf.old shelf.new feed.old feed.new
        (stopped_by result) }
    ensures fewer { OnOk result (feed.new.taken < MOST_BYTES) }

    // How far it read.
    ensures far { ReadsGoodLines limits.now (S.told shelf.old) (S.told shelf.new) feed.old feed.new
        (draft_of draft.old) }
    ensures front { IfErr result (IfLine (λ number _. (number ≡ feed.new.lines + 1)
        × IfSome (S.told shelf.new) (EndsInHand feed.new))) }
    ensures good { IfErr result (IfMoreWanted
        (IfSome (ended_within feed.new.taken (S.told shelf.old) feed.old)
        (λ lines. IsOk (draft_after limits.now (draft_of draft.old) (feed.old.lines + 1) lines)))) }
    ensures early { IfErr result (IfLine
        (λ number cause. IfSome (S.told shelf.old) (MeetsLimit feed.old)
        → IfSome (ended_ahead (S.told shelf.old) feed.old)
        (λ lines. draft_after limits.now (draft_of draft.old) (feed.old.lines + 1) lines
        ≡ Err (record { line = number; cause = cause })))) }
    ensures no_lines { ended_within feed.new.taken (S.told shelf.old) feed.old
        ≡ option_map (λ _. []) (S.told shelf.old)
        → ended_within feed.new.taken (S.told shelf.new) feed.new
        ≡ option_map (λ _. []) (S.told shelf.new) }
{
    'lines: loop {
        let Some(found) = feed.find(shelf)? else {
            return Ok(());
        };
        let line = graph_line(feed.text(found));
        if let Some(cause) = draft.take_line(limits, line)? {
            return Err(GraphRefusal::Line {
                number: feed.lines() + 1,
                cause,
            });
        }
        feed.skip(found);
    }
}

/// The graph of a slot's text, read up to its first bad line, and at most one block of 65,536 bytes
/// further. `Turns` comes
/// exactly where 2^40 bytes were taken, no line that ends in them is bad, and another read is
/// needed.
pub fn read_graph<S: Shelf>(
    alloc: Global,
    shelf: &mut S,
    slot: u32,
    limits: &Limits,
) -> Result<GraphData, GraphRefusal>
    requires slot { slot < S.opened shelf.old }
    ensures graph { IfOk result (λ g. IfSome (S.told shelf.old)
        (λ t. graph_of limits.now (readable t slot) ≡ Ok g)) }
    ensures line { IfErr result (IfLine (λ number cause. IfSome (S.told shelf.old)
        (λ t. graph_of limits.now (readable t slot)
        ≡ Err (record { line = number; cause = cause })))) }
    ensures good { IfOk result (λ g. IsBetween limits.now.attr_lo limits.now.attr_hi (pos 0)
        → IsGood limits.now g) }
    ensures end { OnOk result (IfSome (S.told shelf.new) (λ t. left t slot ≡ [])) }
    ensures reads { ReadsGraph S.told S.opened S.faults shelf.old shelf.new limits.now slot result }
{
    let mut feed = LineFeed::new(alloc, slot);
    let mut draft = GraphDraft::new(alloc);
    read_lines(&mut draft, &mut feed, shelf, limits)?;
    let graph = draft.finish(alloc)?;
    Ok(graph)
}
