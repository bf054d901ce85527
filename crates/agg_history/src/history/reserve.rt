// The memory of a commit.
ghost use Rattle.std.specs.Prelude.{◌≡◌, ◌+◌, ◌<◌, ◌≤◌, ◌^◌, ◌++◌, ◌∷◌, [], ℕ, take, replicate};
ghost use Rattle.std.specs.Prelude.{length, None, IfOk, OnOk, OnErr};
ghost use Rattle.bolt_base.specs.Keep.{stored};
ghost use Rattle.agg_history.specs.Entries.{entry_in, with_entry};
ghost use Rattle.agg_history.specs.Pruned.{track_of};
ghost use Rattle.agg_history.specs.Belongs.{BelongsTo, NewArePut, Fits};
ghost use Rattle.agg_history.specs.Drafted.{IsDrafted, blank_entry};

use crate::cells::Cells;
use crate::history::{Draft, History};
use crate::overlay::Overlay;
use bolt_base::{Lanes, Memory};
use std::alloc::{AllocError, Global};

impl History {
    /// Takes all memory that a commit of this overlay needs. The history stands for the same rows
    /// after either answer.
    pub fn reserve(&mut self, overlay: &Overlay) -> Result<(), Memory>
        requires belongs { BelongsTo overlay.now self.old }
        requires new { NewArePut overlay.now }
        ensures ok { OnOk result (Fits overlay.now self.new) }
        ensures err { OnErr result (self.new.next ≡ None) }
        ensures now { self.new ≡ record self.old { next = self.new.next } }
    {
        self.draft = None;
        let alloc = *self.tracks.allocator();
        let draft = self.drafted(alloc, overlay)?;
        grow_first(&mut self.first, self.vertices, draft.vertices, self.lanes)?;
        grow_tracks(
            alloc,
            &mut self.tracks,
            self.vertices,
            draft.vertices,
            self.lanes,
        )?;
        self.draft = Some(draft);
        Ok(())
    }

    /// Lets go of what `reserve` made ready. Takes no memory.
    pub fn release(&mut self)
        ensures { self.new ≡ record self.old { next = None } }
    {
        self.draft = None;
    }

    // The new lists of the vertices for which something was put.
    fn drafted(&self, alloc: Global, overlay: &Overlay) -> Result<Draft, Memory>
        requires belongs { BelongsTo overlay.now self.now }
        requires new { NewArePut overlay.now }
        ensures { IfOk result (IsDrafted overlay.now self.now) }
    {
        let vertices = overlay.vertices();
        let mut lists = Vec::new(alloc);
        let mut heads = Cells::new(alloc, self.lanes);
        let mut entries = Cells::new(alloc, self.lanes);
        let mut come: u64 = 0;
        let mut gone: u64 = 0;
        let touched = overlay.touched();
        for k in 0..touched.len() {
            let v = touched[k];
            gone += self.old_length(v);
            self.fill_laid(overlay, v, &mut entries)?;
            come += draft_vertex(alloc, &mut lists, &mut heads, &entries, v, self.vertical)?;
        }
        Ok(Draft {
            vertices,
            kept: self.kept + come - gone,
            lists,
            heads,
        })
    }

    // How many entries of a vertex are kept, none of a new one.
    fn old_length(&self, v: u32) -> u64
        ensures length { result ≡ length (track_of self.now.now.tracks v) }
        ensures short { result ≤ 64 }
    {
        if v < self.vertices {
            let track = &self.tracks[v as usize];
            return u64::from(track.len());
        }
        0
    }
}

// Appends the new list of a vertex with these entries, and answers how long it is.
fn draft_vertex(
    alloc: Global,
    lists: &mut Vec<(u32, Cells)>,
    heads: &mut Cells,
    entries: &Cells,
    v: u32,
    vertical: bool,
) -> Result<u64, Memory>
    requires some { 0 < length entries.now.all }
    requires lanes { entries.now.lanes ≡ heads.old.lanes }
    requires room { length heads.old.all + 1 < 2 ^ 32 }
    ensures heads { OnOk result (heads.new ≡ with_entry heads.old (entry_in entries.now.all 0)) }
    ensures lists { OnOk result
        (lists.new.items ≡ lists.old.items ++
        (v, record { lanes = entries.now.lanes; all = stored vertical entries.now.all }) ∷ []) }
    ensures length { IfOk result (λ n. n ≡ length (stored vertical entries.now.all)) }
{
    heads.push_from(entries, 0)?;
    let track = entries.stored(alloc, vertical)?;
    let length = u64::from(track.len());
    lists.push((v, track))?;
    Ok(length)
}

// Keeps the first entries, and adds blank ones up to so many.
fn grow_first(first: &mut Cells, old: u32, vertices: u32, lanes: u32) -> Result<(), AllocError>
    requires lanes { first.old.lanes ≡ lanes }
    requires some { 1 ≤ lanes }
    requires narrow { lanes ≤ 8 }
    requires old { old ≤ length first.old.all }
    requires more { old ≤ vertices }
    ensures blanks { (k : ℕ)
        × (first.new ≡ record first.old {
          all = take old first.old.all ++ replicate k (blank_entry lanes);
        }) }
    ensures ok { OnOk result (length first.new.all ≡ vertices) }
{
    first.truncate(old);
    let blank = Lanes::zeros(lanes);
    for _ in old..vertices {
        first.push(&blank, &blank)?;
    }
    Ok(())
}

// Keeps the first lists, and adds empty ones up to so many.
fn grow_tracks(
    alloc: Global,
    tracks: &mut Vec<Cells>,
    old: u32,
    vertices: u32,
    lanes: u32,
) -> Result<(), Memory>
    requires narrow { lanes ≤ 8 }
    requires old { old ≤ length tracks.old.items }
    requires more { old ≤ vertices }
    ensures blanks { (k : ℕ)
        × (tracks.new.items ≡ take old tracks.old.items ++ replicate k
        (record { lanes = lanes; all = [] })) }
    ensures ok { OnOk result (length tracks.new.items ≡ vertices) }
{
    tracks.truncate(old as usize);
    for _ in old..vertices {
        tracks.push(Cells::new(alloc, lanes))?;
    }
    Ok(())
}
