// Entries of one width, as flat numbers.
ghost use Rattle.std.specs.Prelude.{◌≡◌, ◌↔◌, pos, ◌+◌, ◌<◌, ◌≤◌, ◌^◌, ◌++◌, [], length};
ghost use Rattle.std.specs.Prelude.{take, drop, slice_index_or, slice_set, IsTrue, IfOk, OnOk};
ghost use Rattle.std.specs.Prelude.{OnErr, vec_len, vec_capacity};
ghost use Rattle.bolt_base.specs.Keep.{rest_at, stored};
ghost use Rattle.agg_history.specs.Entries.{entry_in, words_of, with_entry};

use bolt_base::Lanes;
use std::alloc::{AllocError, Global};
use std::marker::Model;

/// Entries of one width, one after another. Contracts see the list of entries.
#[derive(Debug, Drop)]
pub struct Cells {
    lanes: u32,
    len: u32,
    words: Vec<i64>,
}

impl Model for Cells {
    ghost use Rattle.agg_history.specs.Entries.{Entries, coded_entries, chunks, AreCells};

    ghost Value = { Entries };

    ghost coded = { coded_entries };

    ghost view = { λ c. record { lanes = c.lanes; all = chunks c.lanes c.len c.words.items } };

    ghost invariant = { λ c. AreCells c.lanes c.len c.words.items };
}

impl Cells {
    /// No entries. Takes no memory.
    pub fn new(alloc: Global, lanes: u32) -> Cells
        requires { lanes ≤ 8 }
        ensures { result ≡ record { lanes = lanes; all = [] } }
    {
        Cells {
            lanes,
            len: 0,
            words: Vec::new(alloc),
        }
    }

    /// No entries, with room for so many.
    pub fn with_room(alloc: Global, lanes: u32, count: u32) -> Result<Cells, AllocError>
        requires { lanes ≤ 8 }
        ensures { IfOk result (λ cells. cells ≡ record { lanes = lanes; all = [] }) }
    {
        let words = Vec::with_capacity(alloc, count as usize * (2 * lanes as usize))?;
        Ok(Cells {
            lanes,
            len: 0,
            words,
        })
    }

    /// The number of entries.
    pub fn len(&self) -> u32
        ensures { result ≡ length self.now.all }
    {
        self.len
    }

    /// A lane of an entry's aggregate.
    pub fn agg(&self, j: u32, lane: u32) -> i64
        requires entry { j < length self.now.all }
        requires lane { lane < self.now.lanes }
        ensures { result ≡ slice_index_or ((entry_in self.now.all j).0) lane (pos 0) }
    {
        self.words[j as usize * (2 * self.lanes as usize) + lane as usize]
    }

    /// A lane of an entry's value.
    pub fn val(&self, j: u32, lane: u32) -> i64
        requires entry { j < length self.now.all }
        requires lane { lane < self.now.lanes }
        ensures { result ≡ slice_index_or ((entry_in self.now.all j).1) lane (pos 0) }
    {
        self.words[j as usize * (2 * self.lanes as usize) + self.lanes as usize + lane as usize]
    }

    /// Takes the entries out and keeps the room.
    pub fn clear(&mut self)
        ensures { self.new ≡ record self.old { all = [] } }
    {
        self.words.clear();
        self.len = 0;
    }

    /// Keeps the first entries.
    pub fn truncate(&mut self, count: u32)
        requires { count ≤ length self.old.all }
        ensures { self.new ≡ record self.old { all = take count self.old.all } }
    {
        self.words
            .truncate(count as usize * (2 * self.lanes as usize));
        self.len = count;
    }

    /// Appends an entry. Nothing changes after an error.
    pub fn push(&mut self, agg: &Lanes, val: &Lanes) -> Result<(), AllocError>
        requires agg { length agg.now ≡ self.old.lanes }
        requires val { length val.now ≡ self.old.lanes }
        requires room { length self.old.all + 1 < 2 ^ 32 }
        ensures ok { OnOk result (self.new ≡ with_entry self.old (agg.now, val.now)) }
        ensures err { OnErr result (self.new ≡ self.old) }
    {
        self.words.reserve(2 * self.lanes as usize)?;
        push_lanes(&mut self.words, agg);
        push_lanes(&mut self.words, val);
        self.len += 1;
        Ok(())
    }

    /// Appends an entry of another list. Nothing changes after an error.
    pub fn push_from(&mut self, other: &Cells, j: u32) -> Result<(), AllocError>
        requires entry { j < length other.now.all }
        requires lanes { other.now.lanes ≡ self.old.lanes }
        requires room { length self.old.all + 1 < 2 ^ 32 }
        ensures ok { OnOk result (self.new ≡ with_entry self.old (entry_in other.now.all j)) }
        ensures err { OnErr result (self.new ≡ self.old) }
    {
        let _lanes = other.lanes;
        self.words.extend_from_slice(other.words_at(j))?;
        self.len += 1;
        Ok(())
    }

    /// Puts an entry of another list in a place. Takes no memory.
    pub fn set_from(&mut self, place: u32, other: &Cells, j: u32)
        requires place { place < length self.old.all }
        requires entry { j < length other.now.all }
        requires lanes { other.now.lanes ≡ self.old.lanes }
        ensures { self.new ≡ record self.old {
          all = slice_set self.old.all place (entry_in other.now.all j);
        } }
    {
        let _lanes = other.lanes;
        let width = 2 * self.lanes as usize;
        overwrite(&mut self.words, place as usize * width, other.words_at(j));
    }

    /// Whether two entries are the same.
    pub fn same(&self, i: u32, j: u32) -> bool
        requires i { i < length self.now.all }
        requires j { j < length self.now.all }
        ensures { IsTrue result ↔ (entry_in self.now.all i ≡ entry_in self.now.all j) }
    {
        self.words_at(i) == self.words_at(j)
    }

    // The numbers of an entry.
    fn words_at(&self, j: u32) -> &[i64]
        requires { j < length self.now.all }
        ensures value { result.now ≡ words_of (entry_in self.now.all j) }
        ensures agg { length (entry_in self.now.all j).0 ≡ self.now.lanes }
        ensures val { length (entry_in self.now.all j).1 ≡ self.now.lanes }
    {
        let width = 2 * self.lanes as usize;
        piece(&self.words, j as usize * width, width)
    }

    /// The least place from which on all entries are the same.
    pub fn rest_at(&self) -> u32
        requires { 0 < length self.now.all }
        ensures value { result ≡ rest_at self.now.all }
        ensures below { result < length self.now.all }
    {
        let last = self.len() - 1;
        let mut n = last;
        while n > 0 && self.same(n - 1, last) {
            n -= 1;
        }
        n
    }

    /// Of the entries of all iterations, those that are kept.
    pub fn stored(&self, alloc: Global, vertical: bool) -> Result<Cells, AllocError>
        requires { 0 < length self.now.all }
        ensures { IfOk result (λ cells.
            cells ≡ record { lanes = self.now.lanes; all = stored vertical self.now.all }) }
    {
        let count = if vertical {
            self.rest_at()
        } else {
            self.len() - 1
        };
        self.after_first(alloc, count)
    }

    // So many entries after the first, with no room to spare.
    fn after_first(&self, alloc: Global, count: u32) -> Result<Cells, AllocError>
        requires { count < length self.now.all }
        ensures { IfOk result (λ cells.
            cells ≡ record { lanes = self.now.lanes; all = take count (drop 1 self.now.all) }) }
    {
        let width = 2 * self.lanes as usize;
        let words = Vec::from_slice(alloc, piece(&self.words, width, count as usize * width))?;
        Ok(Cells {
            lanes: self.lanes,
            len: count,
            words,
        })
    }
}

// Appends numbers, for which there is room.
fn push_lanes(words: &mut Vec<i64>, lanes: &Lanes)
    requires room { vec_len words.old + length lanes.now ≤ vec_capacity words.old }
    ensures items { words.new.items ≡ words.old.items ++ lanes.now }
    ensures len { vec_len words.new ≡ vec_len words.old + length lanes.now }
    ensures capacity { vec_capacity words.new ≡ vec_capacity words.old }
{
    for lane in 0..lanes.width() {
        words.push_reserved(lanes.get(lane));
    }
}

fn piece(words: &[i64], from: usize, count: usize) -> &[i64]
    requires { from + count ≤ length words.now }
    ensures { result.now ≡ take count (drop from words.now) }
{
    &words[from..from + count]
}

fn overwrite(words: &mut [i64], from: usize, new: &[i64])
    requires { from + length new.now ≤ length words.old }
    ensures { words.new ≡ take from words.old ++
        (new.now ++ drop (from + length new.now) words.old) }
{
    words[from..from + new.len()].copy_from_slice(new);
}
