// Rows as pages.
ghost use Rattle.std.specs.Prelude.{◌≡◌, ◌<◌, IfOk};
ghost use Rattle.std.specs.List.{All};
ghost use Rattle.std.specs.FinMap as finite;
ghost use Rattle.adjacency.specs.Row.{IsRow};
ghost use Rattle.adj_pages.specs.Index.{joined};

use crate::pages::Page;
use adjacency::Row;
use std::alloc::{AllocError, Global};

/// How many arcs stand on one page, at most.
pub const PAGE_ARCS: usize = 64;

impl Page for Row {
    ghost arcs = { λ row. row };

    fn len(&self) -> usize {
        Row::len(self)
    }

    #[inline]
    fn at(&self, k: usize) -> (u32, i64) {
        Row::at(self, k)
    }

    #[inline]
    fn at_near(&self, k: usize, _hint: u32) -> ((u32, i64), u32) {
        (Row::at(self, k), 0)
    }

    fn hints() -> u32 {
        1
    }

    fn get(&self, end: u32) -> Option<i64> {
        Row::get(self, end)
    }

    fn edited(&self, alloc: Global, edits: &[(u32, Option<i64>)]) -> Result<Vec<Row>, AllocError> {
        let row = self.merged(alloc, edits)?;
        let pages = pages_of(alloc, row)?;
        Ok(pages)
    }
}

/// The arcs of a row on pages. What is too long for one page is split into halves, or into several
/// pages with room.
pub fn pages_of(alloc: Global, row: Row) -> Result<Vec<Row>, AllocError>
    ensures arcs { IfOk result (λ v. joined v.items ≡ finite.entries row) }
    ensures some { IfOk result (λ v. All (λ p. 0 < finite.len p) v.items) }
{
    let count = row.len();
    if count > PAGE_ARCS * 2 {
        cut(alloc, row.arcs(), PAGE_ARCS / 4 * 3)
    } else if count > PAGE_ARCS {
        cut(alloc, row.arcs(), count - count / 2)
    } else {
        one_page(alloc, row)
    }
}

// A page, if it has arcs.
fn one_page(alloc: Global, row: Row) -> Result<Vec<Row>, AllocError>
    ensures arcs { IfOk result (λ v. joined v.items ≡ finite.entries row) }
    ensures some { IfOk result (λ v. All (λ p. 0 < finite.len p) v.items) }
{
    let mut pages = Vec::new(alloc);
    if row.len() > 0 {
        pages.push(row)?;
        Ok(pages)
    } else {
        Ok(pages)
    }
}

// Arcs on pages of so many.
fn cut(alloc: Global, arcs: &[(u32, i64)], size: usize) -> Result<Vec<Row>, AllocError>
    requires row { IsRow arcs.now }
    requires size { 0 < size }
    ensures arcs { IfOk result (λ v. joined v.items ≡ arcs.now) }
    ensures some { IfOk result (λ v. All (λ p. 0 < finite.len p) v.items) }
{
    let mut pages = Vec::new(alloc);
    let mut from = 0usize;
    while from < arcs.len() {
        let upto = from + size.min(arcs.len() - from);
        let page = Vec::from_slice(alloc, &arcs[from..upto])?;
        pages.push(Row::from_arcs(page))?;
        from = upto;
    }
    Ok(pages)
}
