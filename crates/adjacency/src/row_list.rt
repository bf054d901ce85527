// The rows of a graph in one direction, and rows that are put in their places.
ghost use Rattle.std.specs.Prelude.{◌≡◌, ◌<◌, ◌++◌, ◌∷◌, [], Some, length, map, take, slice_get};
ghost use Rattle.std.specs.Prelude.{IfOk, OnOk, OnErr};
ghost use Rattle.std.specs.FinMap as finite;
ghost use Rattle.swaps.specs.Swaps.{put_all, undo, AreInside};
ghost use Rattle.adjacency.specs.Rows.{row_at, full_of};
ghost use Rattle.adjacency.specs.Patched.{patched};

use crate::arcs::Arcs;
use crate::near::Near;
use crate::patch::Patch;
use crate::row::Row;
use std::alloc::{AllocError, Global};
use std::marker::Model;

/// A row for each vertex. Contracts see their maps.
#[derive(Drop)]
pub struct RowList<R: Arcs + Drop> {
    rows: Vec<R>,
}

impl<R: Arcs + Drop> Model for RowList<R> {
    ghost use Rattle.std.specs.Prelude.{List, map};
    ghost use Rattle.adjacency.specs.Row.{RowMap};
    ghost use Rattle.adjacency.specs.Rows.{coded_rows};

    ghost Value = { List RowMap };

    ghost coded = { coded_rows };

    ghost view = { λ l. map R.arcs l.rows.items };
}

/// Rows with their places. Contracts see their maps.
#[derive(Drop)]
pub struct PlacedRows<R: Arcs + Drop> {
    items: Vec<(u32, R)>,
}

impl<R: Arcs + Drop> Model for PlacedRows<R> {
    ghost use Rattle.std.specs.Prelude.{ℕ, List};
    ghost use Rattle.adjacency.specs.Row.{RowMap};
    ghost use Rattle.adjacency.specs.Rows.{placed, coded_placed};

    ghost Value = { List (ℕ × RowMap) };

    ghost coded = { coded_placed };

    ghost view = { λ p. placed R.arcs p.items.items };
}

impl<R: Arcs + Drop> PlacedRows<R> {
    /// No rows.
    pub fn new(alloc: Global) -> PlacedRows<R>
        ensures { result ≡ [] }
    {
        PlacedRows {
            items: Vec::new(alloc),
        }
    }

    /// One row more.
    pub fn push(&mut self, place: u32, row: R) -> Result<(), AllocError>
        ensures { OnOk result (self.new ≡ self.old ++ (place, R.arcs row) ∷ []) }
    {
        self.items.push((place, row))?;
        Ok(())
    }

    /// Drops all rows.
    pub fn clear(&mut self)
        ensures { self.new ≡ [] }
    {
        self.items.clear();
    }
}

impl<R: Arcs + Drop> RowList<R> {
    /// A row for each of these.
    pub fn of_rows(alloc: Global, mut rows: Vec<Row>) -> Result<RowList<R>, AllocError>
        ensures { IfOk result (λ list. list ≡ rows.items) }
    {
        let mut list = Vec::with_capacity(alloc, rows.len())?;
        rows.reverse();
        while let Some(row) = rows.pop() {
            list.push(R::of_row(alloc, row)?)?;
        }
        Ok(RowList { rows: list })
    }

    /// How many rows there are.
    pub fn len(&self) -> usize
        ensures { result ≡ length self.now }
    {
        self.rows.len()
    }

    /// How many arcs the row has that stands there; none where there is no row.
    pub fn degree(&self, at: u32) -> usize
        ensures { result ≡ finite.len (row_at self.now at) }
    {
        let at = at as usize;
        if at < self.rows.len() {
            let row = &self.rows[at];
            row.degree()
        } else {
            0
        }
    }

    /// The weight of an end in the row that stands there, if there is one.
    pub fn weight(&self, at: u32, end: u32) -> Option<i64>
        ensures { result ≡ finite.get (row_at self.now at) end }
    {
        let at = at as usize;
        if at < self.rows.len() {
            let row = &self.rows[at];
            row.weight(end)
        } else {
            None
        }
    }

    /// The k-th arc of a row.
    #[inline]
    pub fn arc(&self, at: u32, k: u32) -> (u32, i64)
        requires { k < finite.len (row_at self.now at) }
        ensures { slice_get (finite.entries (row_at self.now at)) k ≡ Some result }
    {
        let row = &self.rows[at as usize];
        row.arc(k as usize)
    }

    /// The k-th arc of a row, at once where the hint is the one that the read of the arc before
    /// left.
    #[inline]
    pub fn arc_near(&self, at: u32, k: u32, near: &mut Near) -> (u32, i64)
        requires { k < finite.len (row_at self.now at) }
        ensures { slice_get (finite.entries (row_at self.now at)) k ≡ Some result }
    {
        let row = &self.rows[at as usize];
        row.arc_near(k as usize, near)
    }

    /// The row that stands there, or an empty one, with the patch put over it.
    pub fn patched(&self, alloc: Global, at: u32, patch: Patch) -> Result<R, AllocError>
        ensures { IfOk result (λ r. R.arcs r ≡ patched (row_at self.now at) patch) }
    {
        let at = at as usize;
        if at < self.rows.len() {
            let row = &self.rows[at];
            patch.over(alloc, row)
        } else {
            let row = R::none(alloc);
            patch.over(alloc, &row)
        }
    }

    /// Appends empty rows, or none.
    pub fn grow(&mut self, alloc: Global, count: usize) -> Result<(), AllocError>
        ensures ok { OnOk result (self.new ≡ full_of self.old count) }
        ensures err { OnErr result (self.new ≡ self.old) }
    {
        grow_rows(alloc, &mut self.rows, count)?;
        Ok(())
    }

    /// Leaves the first rows alone.
    pub fn truncate(&mut self, count: usize)
        ensures { self.new ≡ take count self.old }
    {
        self.rows.truncate(count);
    }

    /// Puts each row in its place, in order, and leaves in its stead what stood there. Takes no
    /// memory.
    pub fn swap_in(&mut self, placed: &mut PlacedRows<R>)
        requires { AreInside (length self.old) placed.old }
        ensures put { self.new ≡ put_all placed.old self.old }
        ensures back { undo placed.new self.new ≡ self.old }
        ensures inside { AreInside (length self.new) placed.new }
        ensures length { length self.new ≡ length self.old }
    {
        swaps::swap_in(&mut self.rows, &mut placed.items);
    }

    /// Puts back what stood there, the last first, and drops what stands there now. Takes no
    /// memory.
    pub fn put_back(&mut self, placed: &mut PlacedRows<R>)
        requires { AreInside (length self.old) placed.old }
        ensures back { self.new ≡ undo placed.old self.old }
        ensures none { placed.new ≡ [] }
        ensures length { length self.new ≡ length self.old }
    {
        swaps::put_back(&mut self.rows, &mut placed.items);
    }
}

// Appends empty rows, or none.
fn grow_rows<R: Arcs + Drop>(
    alloc: Global,
    rows: &mut Vec<R>,
    count: usize,
) -> Result<(), AllocError>
    ensures ok { OnOk result (map R.arcs rows.new.items
        ≡ full_of (map R.arcs rows.old.items) count) }
    ensures err { OnErr result (rows.new.items ≡ rows.old.items) }
{
    let old = rows.len();
    for _ in 0..count {
        if rows.push(R::none(alloc)).is_err() {
            rows.truncate(old);
            return Err(AllocError);
        }
    }
    Ok(())
}
