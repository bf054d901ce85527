// A feed of lines over a slot of a shelf.
ghost use Rattle.std.specs.Prelude.{◌≡◌, ℕ, ◌+◌, ◌-◌, ◌<◌, ◌≤◌, suc, [], ◌∷◌, ◌++◌, List, Option};
ghost use Rattle.std.specs.Prelude.{Some, None, Err, length, take, slice_range, IfOk, IfErr};
ghost use Rattle.std.specs.Prelude.{OnOk, OnErr, IsOk, IfSome, IfNone, MatchOption, vec_len};
ghost use Rattle.std.specs.Option.{option_map};
ghost use Rattle.std.specs.Result.{result_err};
ghost use Rattle.bolt_io.specs.declared.whole.TheConstants.{MOST_BYTES};
ghost use Rattle.bolt_io.specs.Faults.{Rose};
ghost use Rattle.bolt_io.specs.Told.{left};
ghost use Rattle.text_lines.specs.declared.line_feed.TheConstants.{BLOCK_BYTES, KEPT_BYTES};
ghost use Rattle.lexical.specs.Bytes.{without_carriage_return as without_carriage_return_of};
ghost use Rattle.text_lines.specs.Lines.{seen};
ghost use Rattle.text_lines.specs.Feed.{Feed, fresh_feed, ahead, ended_ahead, ended_within};
ghost use Rattle.text_lines.specs.Feed.{bytes_after, IsStuck, IsAtEnd, MeetsLimit, NeedsMore};
ghost use Rattle.text_lines.specs.Feed.{IsFront, EndsLine, answered, ReadsOn};
ghost use Rattle.text_lines.specs.Reading.{IfTurns, IsSpent, ReadsSlot, FeedReads};
ghost use Rattle.text_lines.specs.Answers.{answered_line, number_of};

use crate::feed::{FeedError, Line};
use bolt_base::Bytes;
use bolt_io::{MOST_BYTES, Shelf, ShelfFault};
use lexical::{line_feed_at, without_carriage_return};
use std::alloc::{AllocError, Global};
use std::marker::Model;

/// How many bytes a line has at most, its comment included, without its end.
pub const MOST_LINE_BYTES: usize = 255;

/// How many bytes a read asks for at most, and a feed holds at most.
pub const BLOCK_BYTES: usize = 65_536;

/// How many bytes of a line that has no end yet are kept: so many are a long line, whatever follows
/// them.
const KEPT_BYTES: usize = 257;

/// The line in front of a feed: how many bytes it has, and how many with its end.
#[derive(Clone, Copy, Debug)]
pub struct FrontLine {
    pub len: usize,
    pub whole: usize,
}

/// The lines of a slot, however its bytes are cut by reads. A long line is dropped as it passes.
#[derive(Drop)]
pub struct LineFeed {
    alloc: Global,
    slot: u32,
    block: Vec<u8>,
    at: usize,
    end: usize,
    lines: u64,
    taken: u64,
}

impl Model for LineFeed {
    ghost use Rattle.std.specs.Prelude.{slice_range, length};
    ghost use Rattle.text_lines.specs.Feed.{Feed, IsKept};

    ghost Value = { Feed };

    ghost view = { λ f. record {
      slot = f.slot;
      pending = slice_range f.block.items f.at f.end;
      lines = f.lines;
      taken = f.taken;
    } };

    ghost invariant = { λ f. IsKept f.at f.end (length f.block.items) f.lines f.taken };
}

/// Moves a line that has no end yet to the front, as far as it counts, and answers how many bytes
/// that are.
fn move_front(block: &mut [u8], at: usize, end: usize) -> usize
    requires begins { at ≤ end }
    requires within { end ≤ length block.old }
    ensures front { take result block.new ≡ take KEPT_BYTES (slice_range block.old at end) }
    ensures short { result ≤ KEPT_BYTES }
    ensures less { result ≤ end - at }
{
    let n = (end - at).min(KEPT_BYTES);
    block.copy_within(at..at + n, 0);
    n
}

/// Reads into a block from a place on.
fn read_at<S: Shelf>(
    shelf: &mut S,
    slot: u32,
    block: &mut [u8],
    at: usize,
    room: usize,
) -> Result<usize, ShelfFault>
    requires slot { slot < S.opened shelf.old }
    requires room { 0 < room }
    requires within { at + room ≤ length block.old }
    ensures size { length block.new ≡ length block.old }
    ensures within { IfOk result (λ n. n ≤ room) }
    ensures front { take at block.new ≡ take at block.old }
    ensures bytes { IfOk result (λ n. IfSome (S.told shelf.old)
        (λ t. take (at + n) block.new ≡ take at block.old ++ take n (left t slot))) }
    ensures reads { IfOk result (λ n. ReadsOn (S.told shelf.old) (S.told shelf.new) slot n) }
    ensures untouched { OnErr result (S.told shelf.new ≡ S.told shelf.old) }
    ensures opened { S.opened shelf.new ≡ S.opened shelf.old }
    ensures calm { OnOk result (S.faults shelf.new ≡ S.faults shelf.old) }
    ensures blamed { OnErr result (Rose (S.faults shelf.old) (S.faults shelf.new)) }
    ensures no_fewer_faults { S.faults shelf.old ≤ S.faults shelf.new }
{
    let piece = &mut block[at..at + room];
    let n = shelf.read(slot, piece)?;
    Ok(n)
}

/// Makes a block as long as it has to be, where its first bytes count.
fn grow_block(block: &mut Vec<u8>, kept: usize) -> Result<(), AllocError>
    requires kept { kept ≤ vec_len block.old }
    requires one_block { vec_len block.old ≤ BLOCK_BYTES }
    ensures size { OnOk result (vec_len block.new ≡ BLOCK_BYTES) }
    ensures one_block { vec_len block.new ≤ BLOCK_BYTES }
    ensures front { take kept block.new.items ≡ take kept block.old.items }
    ensures no_less { kept ≤ vec_len block.new }
{
    if block.len() >= BLOCK_BYTES {
        return Ok(());
    }
    block.resize(BLOCK_BYTES, 0)?;
    Ok(())
}

/// How many bytes a line has that an LF ends.
fn line_len(line: &[u8]) -> usize
    ensures line { take result line.now ≡ without_carriage_return_of line.now }
    ensures within { result ≤ length line.now }
{
    without_carriage_return(line).len()
}

impl LineFeed {
    /// A feed of the lines of a slot. It takes no memory.
    pub fn new(alloc: Global, slot: u32) -> LineFeed
        ensures { result ≡ fresh_feed slot }
    {
        LineFeed {
            alloc,
            slot,
            block: Vec::new(alloc),
            at: 0,
            end: 0,
            lines: 0,
            taken: 0,
        }
    }

    /// How many lines were answered.
    pub fn lines(&self) -> u64
        ensures value { result ≡ self.now.lines }
        ensures most { result + length self.now.pending ≤ self.now.taken }
        ensures most_taken { self.now.taken ≤ MOST_BYTES }
        ensures held { length self.now.pending ≤ BLOCK_BYTES }
    {
        self.lines
    }

    // The line in front, where its end was taken.
    fn ended_line(&self) -> Option<FrontLine>
        ensures line { MatchOption result (NeedsMore self.now)
            (λ f. EndsLine self.now.pending f.len f.whole) }
        ensures most { self.now.taken ≤ MOST_BYTES }
        ensures counted { self.now.lines + length self.now.pending ≤ self.now.taken }
        ensures held { length self.now.pending ≤ BLOCK_BYTES }
    {
        let front = &self.block[self.at..self.end];
        let end = line_feed_at(front);
        if end == front.len() {
            return None;
        }
        Some(FrontLine {
            len: line_len(&front[..end]),
            whole: end + 1,
        })
    }

    // The last line, which has no end.
    fn last_line(&self) -> Option<FrontLine>
        ensures { MatchOption result (self.now.pending ≡ [])
            (λ f. (0 < f.whole) × (f.len ≡ f.whole) × (f.whole ≡ length self.now.pending)) }
    {
        let len = self.end - self.at;
        if len == 0 {
            None
        } else {
            Some(FrontLine { len, whole: len })
        }
    }

    // Takes more bytes, none only at the end. No line may end in those that were taken.
    fn read_more<S: Shelf>(&mut self, shelf: &mut S) -> Result<usize, FeedError>
        requires slot { self.old.slot < S.opened shelf.old }
        requires few { self.old.taken < MOST_BYTES }
        ensures reads { ReadsSlot S.told S.opened S.faults shelf.old shelf.new
            self.old.slot self.old.taken self.new.taken (result_err result) }
        ensures taken { IfOk result (λ n. self.new.taken ≡ self.old.taken + n) }
        ensures bytes { IfOk result (λ n. IfSome (S.told shelf.old)
            (λ t. self.new.pending ≡ take KEPT_BYTES self.old.pending
            ++ take n (left t self.old.slot))) }
        ensures none { IfOk result (λ n. n ≡ 0
            → self.new.pending ≡ take KEPT_BYTES self.old.pending) }
        ensures at_end { IfOk result
            (λ n. n ≡ 0 → IfSome (S.told shelf.old) (λ t. left t self.old.slot ≡ [])) }
        ensures slot { self.new.slot ≡ self.old.slot }
        ensures lines { self.new.lines ≡ self.old.lines }
        ensures counted { self.new.lines + length self.new.pending ≤ self.new.taken }
        ensures held { length self.new.pending ≤ BLOCK_BYTES }
        ensures kept { OnErr result (self.new
            ≡ record self.old { pending = take KEPT_BYTES self.old.pending }) }
        ensures untouched { OnErr result (S.told shelf.new ≡ S.told shelf.old) }
        ensures no_turns { IfErr result (IfTurns (λ _. ⊥)) }
    {
        self.end = move_front(&mut self.block, self.at, self.end);
        self.at = 0;
        grow_block(&mut self.block, self.end)?;
        let room = (BLOCK_BYTES - self.end).min((MOST_BYTES - self.taken) as usize);
        let n = read_at(shelf, self.slot, &mut self.block, self.end, room)?;
        self.end += n;
        self.taken += n as u64;
        Ok(n)
    }

    /// Takes bytes until the whole next line is there, and answers where it lies; None where there
    /// is no further line.
    /// After `Shelf` or `Memory` no byte is lost, and the call may be made again.
    pub fn find<S: Shelf>(&mut self, shelf: &mut S) -> Result<Option<FrontLine>, FeedError>
        requires slot { self.old.slot < S.opened shelf.old }
        ensures line { IfOk result (λ r. MatchOption r (IsAtEnd (S.told shelf.new) self.new)
            (λ f. IsFront (S.told shelf.new) self.new f.len f.whole)) }
        ensures lines { self.new.lines ≡ self.old.lines }
        ensures reads { FeedReads S.told S.opened S.faults shelf.old shelf.new self.old self.new
            (result_err result) }
        ensures fewer { IfOk result (λ r. IfNone r (self.new.taken < MOST_BYTES)) }

        // What is ahead stays so: the lines, those that end in the first bytes, and the bytes
        // behind the first lines.
        ensures ahead { ahead (S.told shelf.new) self.new ≡ ahead (S.told shelf.old) self.old }
        ensures ended { (most : ℕ) → self.new.taken ≤ most
            → ended_within most (S.told shelf.new) self.new
            ≡ ended_within most (S.told shelf.old) self.old }
        ensures after { (n : ℕ) → bytes_after (suc n) (S.told shelf.new) self.new
            ≡ bytes_after (suc n) (S.told shelf.old) self.old }

        // A line that ends in what was taken is answered without a read.
        ensures at_hand { ¬ NeedsMore self.old → IsOk result }
        ensures unread { ¬ NeedsMore self.old → shelf.new ≡ shelf.old }
        ensures due { IsSpent self.old → result ≡ Err (FeedError.Turns MOST_BYTES) }
    {
        'reads: loop {
            if let Some(found) = self.ended_line() {
                return Ok(Some(found));
            }
            if self.taken == MOST_BYTES {
                return Err(FeedError::Turns { taken: self.taken });
            }
            let n = self.read_more(shelf)?;
            if n == 0 {
                return Ok(self.last_line());
            }
        }
    }

    /// The line that was found, without its end, unless it is long.
    pub fn text(&self, found: FrontLine) -> Option<&[u8]>
        requires { found.len ≤ length self.now.pending }
        ensures { option_map (λ line. line.now) result ≡ seen (take found.len self.now.pending) }
    {
        let line = &self.block[self.at..self.at + found.len];
        if line.len() > MOST_LINE_BYTES {
            None
        } else {
            Some(line)
        }
    }

    /// Leaves behind the line that was found.
    pub fn skip(&mut self, found: FrontLine)
        requires some { 0 < found.whole }
        requires within { found.whole ≤ length self.old.pending }
        ensures { self.new ≡ answered found.whole self.old }
    {
        self.at += found.whole;
        self.lines += 1;
    }

    /// The next line; None exactly at the end. After `Shelf` or `Memory` no byte is lost, and the
    /// call may be made again.
    pub fn next<S: Shelf>(&mut self, shelf: &mut S) -> Result<Option<Line>, FeedError>
        requires slot { self.old.slot < S.opened shelf.old }
        ensures line { IfOk result (λ r. IfSome r (λ line. ahead (S.told shelf.old) self.old
            ≡ option_map (λ rest. answered_line line ∷ rest) (ahead (S.told shelf.new) self.new))) }
        ensures ended_line { IfOk result
            (λ r. IfSome r (λ line. IfSome (S.told shelf.old) (MeetsLimit self.old)
            → ended_ahead (S.told shelf.old) self.old
            ≡ option_map (λ rest. answered_line line ∷ rest)
            (ended_ahead (S.told shelf.new) self.new))) }
        ensures number { IfOk result (λ r. IfSome r (λ line. number_of line ≡ self.new.lines)) }
        ensures one_more { IfOk result (λ r. MatchOption r (self.new.lines ≡ self.old.lines)
            (λ _. self.new.lines ≡ self.old.lines + 1)) }
        ensures end { IfOk result (λ r. IfNone r (IsAtEnd (S.told shelf.new) self.new)) }
        ensures none { IfOk result (λ r. IfNone r
            (ahead (S.told shelf.old) self.old ≡ option_map (λ _. []) (S.told shelf.old))) }
        ensures reads { FeedReads S.told S.opened S.faults shelf.old shelf.new self.old self.new
            (result_err result) }
        ensures fewer { IfOk result (λ r. IfNone r (self.new.taken < MOST_BYTES)) }

        // A line that ends in what was taken is answered without a read.
        ensures unread { ¬ NeedsMore self.old → shelf.new ≡ shelf.old }
        ensures long_at_hand { (rest : List (Option (List ℕ))) → ¬ NeedsMore self.old
            → ahead (S.told shelf.old) self.old ≡ Some (None ∷ rest) → IsOk result }

        // After an error all lines are still to come.
        ensures kept { OnErr result (ahead (S.told shelf.new) self.new
            ≡ ahead (S.told shelf.old) self.old) }
        ensures kept_ended { OnErr result
            (ended_ahead (S.told shelf.new) self.new ≡ ended_ahead (S.told shelf.old) self.old) }
        ensures kept_lines { OnErr result (self.new.lines ≡ self.old.lines) }

        // `Turns` comes exactly where another read than the last that may be is needed.
        ensures due { IsSpent self.old → result ≡ Err (FeedError.Turns MOST_BYTES) }
        ensures stuck { IfErr result (IfTurns (λ _. IfSome (S.told shelf.old) (IsStuck self.old))) }
        ensures not_stuck { OnOk result (IfSome (S.told shelf.old) (λ t. ¬ IsStuck self.old t)) }
    {
        let Some(found) = self.find(shelf)? else {
            return Ok(None);
        };
        let number = self.lines() + 1;
        let line = match self.text(found) {
            None => Line::Long { number },
            Some(text) => Line::Text {
                number,
                bytes: Bytes::from_slice(self.alloc, text)?,
            },
        };
        self.skip(found);
        Ok(Some(line))
    }
}
