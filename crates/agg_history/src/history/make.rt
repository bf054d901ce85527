// A history of rows.
ghost use Rattle.std.specs.Prelude.{◌≡◌, ◌+◌, ◌<◌, ◌^◌, ◌++◌, ◌∷◌, [], length, IfOk, OnOk};
ghost use Rattle.bolt_base.specs.Keep.{column, stored};
ghost use Rattle.bolt_base.specs.RowTable.{entry_at};
ghost use Rattle.bolt_base.specs.RowShape.{AreRectangular};
ghost use Rattle.agg_history.specs.Entries.{entry_in, with_entry};
ghost use Rattle.agg_history.specs.Pruned.{rows_of, history_for};

use crate::cells::Cells;
use crate::history::History;
use bolt_base::{Lanes, Memory, Rows};
use std::alloc::Global;

impl History {
    /// The history that stands for these rows, of the iterations 0 to the cut.
    pub fn from_rows(alloc: Global, rows: Rows, cut: u32, vertical: bool) -> Result<History, Memory>
        requires { length rows.rows ≡ cut + 1 }
        ensures state { IfOk result (λ history. history ≡ history_for vertical cut rows) }
        ensures rows { IfOk result (λ history. rows_of history ≡ rows.rows) }
    {
        let vertices = rows.vertices();
        let lanes = rows.lanes();
        let mut first = Cells::with_room(alloc, lanes, vertices)?;
        let mut tracks = Vec::with_capacity(alloc, vertices as usize)?;
        let mut entries = Cells::new(alloc, lanes);
        let mut kept: u64 = 0;
        for v in 0..vertices {
            fill_column(&mut entries, &rows, v)?;
            kept += push_vertex(alloc, &mut first, &mut tracks, &entries, vertical)?;
        }
        Ok(History {
            vertical,
            cut,
            lanes,
            vertices,
            kept,
            first,
            tracks,
            draft: None,
        })
    }
}

// Takes the entries of a vertex at all iterations out of rows.
fn fill_column(entries: &mut Cells, rows: &Rows, v: u32) -> Result<(), Memory>
    requires lanes { entries.old.lanes ≡ rows.now.lanes }
    requires vertex { v < rows.now.vertices }
    requires shape { AreRectangular rows.now }
    ensures { OnOk result
        (entries.new ≡ record { lanes = rows.now.lanes; all = column rows.now.rows v }) }
{
    entries.clear();
    for i in 0..rows.len() {
        entries.push(&agg_of(rows, i, v), &val_of(rows, i, v))?;
    }
    Ok(())
}

// The aggregate of a vertex at an iteration.
fn agg_of(rows: &Rows, i: u32, v: u32) -> Lanes
    requires iteration { i < length rows.now.rows }
    requires vertex { v < rows.now.vertices }
    requires wide { length (entry_at rows.now.rows i v).0 ≡ rows.now.lanes }
    ensures { result ≡ (entry_at rows.now.rows i v).0 }
{
    let lanes = rows.lanes();
    let mut agg = Lanes::zeros(lanes);
    for lane in 0..lanes {
        agg.set(lane, rows.agg(i, v, lane));
    }
    agg
}

// The value of a vertex at an iteration.
fn val_of(rows: &Rows, i: u32, v: u32) -> Lanes
    requires iteration { i < length rows.now.rows }
    requires vertex { v < rows.now.vertices }
    requires wide { length (entry_at rows.now.rows i v).1 ≡ rows.now.lanes }
    ensures { result ≡ (entry_at rows.now.rows i v).1 }
{
    let lanes = rows.lanes();
    let mut val = Lanes::zeros(lanes);
    for lane in 0..lanes {
        val.set(lane, rows.val(i, v, lane));
    }
    val
}

// Appends a vertex with these entries, and answers how many of them it keeps.
fn push_vertex(
    alloc: Global,
    first: &mut Cells,
    tracks: &mut Vec<Cells>,
    entries: &Cells,
    vertical: bool,
) -> Result<u64, Memory>
    requires some { 0 < length entries.now.all }
    requires lanes { entries.now.lanes ≡ first.old.lanes }
    requires room { length first.old.all + 1 < 2 ^ 32 }
    ensures first { OnOk result (first.new ≡ with_entry first.old (entry_in entries.now.all 0)) }
    ensures tracks { OnOk result
        (tracks.new.items ≡ tracks.old.items ++ record {
          lanes = entries.now.lanes;
          all = stored vertical entries.now.all;
        } ∷ []) }
    ensures kept { IfOk result (λ kept. kept ≡ length (stored vertical entries.now.all)) }
{
    first.push_from(entries, 0)?;
    let track = entries.stored(alloc, vertical)?;
    let kept = u64::from(track.len());
    tracks.push(track)?;
    Ok(kept)
}
