// What a batch puts over a history.
ghost use Rattle.std.specs.Prelude.{◌≡◌, ◌↔◌, IsTrue, ℕ, pos, false, ◌==◌, ◌+◌, ◌<◌, ◌≤◌, ◌^◌};
ghost use Rattle.std.specs.Prelude.{[], length, map, replicate, slice_index_or, Some};
ghost use Rattle.std.specs.Prelude.{None, IsSome, IfOk, OnOk, OnErr};
ghost use Rattle.agg_history.specs.Puts.{IsPutMore, no_puts_for, round_at, put_at, with_put};
ghost use Rattle.agg_history.specs.Puts.{laid_at};
ghost use Rattle.agg_history.specs.PutList.{put_in};
ghost use Rattle.agg_history.specs.Pruned.{rows_of};
ghost use Rattle.agg_history.specs.Belongs.{BelongsTo, HaveNoPut};
ghost use Rattle.std.specs.List.{All, IsDistinct};
ghost use Rattle.agg_history.specs.Entries.{with_entry};

use crate::cells::Cells;
use crate::history::History;
use crate::places::Places;
use crate::put_list::PutList;
use bolt_base::{Lanes, Memory};
use std::alloc::{AllocError, Global};
use std::marker::Model;

/// New entries of vertices at iterations 0 to the cut, to be laid over the rows of a history.
#[derive(Debug, Drop)]
pub struct Overlay {
    old_vertices: u32,
    vertices: u32,
    lanes: u32,
    cut: u32,
    places: Places,
    rounds: Vec<PutList>,
}

impl Model for Overlay {
    ghost use Rattle.agg_history.specs.Puts.{PutTable, coded_put_table};

    ghost Value = { PutTable };

    ghost coded = { coded_put_table };

    ghost use Rattle.agg_history.specs.OverlayOf.{overlay_of, IsOverlay};

    ghost view = { overlay_of };

    ghost invariant = { IsOverlay };
}

impl Overlay {
    /// An empty overlay for a history of `old_vertices`. A vertex below `vertices` that isn't below
    /// `old_vertices` is new.
    /// It costs 4 bytes a vertex.
    pub fn new(
        alloc: Global,
        old_vertices: u32,
        vertices: u32,
        lanes: u32,
        cut: u32,
    ) -> Result<Overlay, Memory>
        requires old { old_vertices ≤ vertices }
        requires some { 1 ≤ lanes }
        requires narrow { lanes ≤ 8 }
        requires short { cut ≤ 64 }
        ensures { IfOk result (λ overlay. overlay ≡ no_puts_for old_vertices vertices lanes cut) }
    {
        let places = Places::new(alloc, cut + 1, vertices)?;
        let rounds = no_puts(alloc, lanes, cut + 1)?;
        Ok(Overlay {
            old_vertices,
            vertices,
            lanes,
            cut,
            places,
            rounds,
        })
    }

    /// Puts an entry for a vertex at an iteration, after those that were put there. Nothing changes
    /// after `Memory`.
    pub fn put(&mut self, i: u32, v: u32, agg: Lanes, val: Lanes) -> Result<(), Memory>
        requires iteration { i ≤ self.old.cut }
        requires vertex { v < self.old.vertices }
        requires agg { length agg ≡ self.old.lanes }
        requires val { length val ≡ self.old.lanes }
        requires once { put_at self.old.puts i v ≡ None }
        ensures ok { OnOk result
            (self.new ≡ record self.old { puts = with_put self.old.puts i v (agg, val) }) }
        ensures found { OnOk result (IsPutMore self.old.puts i v (agg, val) self.new.puts) }
        ensures err { OnErr result (self.new ≡ self.old) }
    {
        self.places.touch(v)?;
        let round = &mut self.rounds[i as usize];
        round.push(v, &agg, &val)?;
        let place = round.len();
        self.places.set(v, i, place);
        Ok(())
    }

    /// Whether an entry was put for a vertex at an iteration.
    pub fn has(&self, i: u32, v: u32) -> bool
        requires iteration { i ≤ self.now.cut }
        requires vertex { v < self.now.vertices }
        ensures put { IsTrue result ↔ IsSome (put_at self.now.puts i v) }
        ensures none { result ≡ false → put_at self.now.puts i v ≡ None }
    {
        self.place(i, v) != 0
    }

    /// A lane of the aggregate of vertex `v` at iteration `i`: what was put, else what the history
    /// has.
    pub fn agg(&self, history: &History, i: u32, v: u32, lane: u32) -> i64
        requires belongs { BelongsTo self.now history.now }
        requires iteration { i ≤ self.now.cut }
        requires vertex { v < self.now.vertices }
        requires new { self.now.old_vertices ≤ v → IsSome (put_at self.now.puts i v) }
        requires lane { lane < self.now.lanes }
        ensures { result ≡ slice_index_or ((laid_at self.now.puts (rows_of history.now) i v).0) lane
            (pos 0) }
    {
        let place = self.place(i, v);
        if place == 0 {
            return history.agg(i, v, lane);
        }
        let round = &self.rounds[i as usize];
        round.agg(place - 1, lane)
    }

    /// A lane of the value of vertex `v` at iteration `i`: what was put, else what the history has.
    pub fn val(&self, history: &History, i: u32, v: u32, lane: u32) -> i64
        requires belongs { BelongsTo self.now history.now }
        requires iteration { i ≤ self.now.cut }
        requires vertex { v < self.now.vertices }
        requires new { self.now.old_vertices ≤ v → IsSome (put_at self.now.puts i v) }
        requires lane { lane < self.now.lanes }
        ensures { result ≡ slice_index_or ((laid_at self.now.puts (rows_of history.now) i v).1) lane
            (pos 0) }
    {
        let place = self.place(i, v);
        if place == 0 {
            return history.val(i, v, lane);
        }
        let round = &self.rounds[i as usize];
        round.val(place - 1, lane)
    }

    // The number of vertices.
    pub(crate) fn vertices(&self) -> u32
        ensures all { result ≡ self.now.vertices }
        ensures more { self.now.old_vertices ≤ result }
    {
        self.vertices
    }

    // Vertices among which are all for which something was put, each once.
    pub(crate) fn touched(&self) -> &[u32]
        ensures inside { All (λ v. v < self.now.vertices) result.now }
        ensures distinct { IsDistinct (λ u v. u == v) result.now }
        ensures few { length result.now ≤ self.now.vertices }
        ensures others { HaveNoPut self.now result.now }
    {
        let _lanes = self.lanes;
        self.places.touched()
    }

    // The place of a vertex among the puts of an iteration, counted from 1, or 0.
    pub(crate) fn place(&self, i: u32, v: u32) -> u32
        requires iteration { i ≤ self.now.cut }
        requires vertex { v < self.now.vertices }
        ensures below { result ≤ length (round_at self.now.puts i) }
        ensures none { result ≡ 0 → put_at self.now.puts i v ≡ None }
        ensures there { (p : ℕ) → result ≡ p + 1
            → put_at self.now.puts i v ≡ Some (put_in (round_at self.now.puts i) p).1 }
    {
        self.places.get(v, i)
    }

    // Appends what was put at a place of an iteration to other entries.
    pub(crate) fn push_put(&self, i: u32, place: u32, column: &mut Cells) -> Result<(), AllocError>
        requires iteration { i ≤ self.now.cut }
        requires place { place < length (round_at self.now.puts i) }
        requires lanes { column.old.lanes ≡ self.now.lanes }
        requires room { length column.old.all + 1 < 2 ^ 32 }
        ensures ok { OnOk result
            (column.new ≡ with_entry column.old (put_in (round_at self.now.puts i) place).1) }
    {
        let round = &self.rounds[i as usize];
        round.push_onto(place, column)
    }

    /// The vertices that were put at an iteration, in the order of putting.
    pub fn vertices_at(&self, i: u32) -> &[u32]
        requires { i ≤ self.now.cut }
        ensures { result.now ≡ map (λ put. put.0) (round_at self.now.puts i) }
    {
        let round = &self.rounds[i as usize];
        round.vertices()
    }
}

// So many lists without puts.
fn no_puts(alloc: Global, lanes: u32, count: u32) -> Result<Vec<PutList>, Memory>
    requires { lanes ≤ 8 }
    ensures { IfOk result (λ rounds.
        rounds.items ≡ replicate count (record { lanes = lanes; puts = [] })) }
{
    let mut rounds = Vec::with_capacity(alloc, count as usize)?;
    for _ in 0..count {
        rounds.push(PutList::new(alloc, lanes))?;
    }
    Ok(rounds)
}
