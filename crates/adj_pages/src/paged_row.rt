// A vertex's edges in one direction, in pages.
ghost use Rattle.std.specs.Prelude.{◌≡◌, ◌<◌, IfOk};
ghost use Rattle.std.specs.FinMap as finite;
ghost use Rattle.adjacency.specs.Merge.{IsPatch};
ghost use Rattle.adjacency.specs.Patched.{merged_row};

use crate::page::{PAGE_ARCS, pages_of};
use crate::pages::Pages;
use adjacency::{Arcs, Near, Row};
use std::alloc::{AllocError, Global};
use std::marker::Model;

// What stands where no arc can be read.
const NO_ARC: (u32, i64) = (0, 0);

// A row without arcs takes no memory. One that fits a page is that page. Another one has an index
// of lists of pages, each with an index of its own.
#[derive(Drop)]
enum Form {
    Empty,
    One(Box<Row>),
    Many(Box<Pages<Pages<Row>>>),
}

/// The other ends of a vertex's edges, rising, with the weights, in pages. Contracts see a finite
/// map.
#[derive(Drop)]
pub struct PagedRow {
    form: Form,
}

impl Model for PagedRow {
    ghost use Rattle.std.specs.Coded.{coded_ℕ, coded_ℤ};
    ghost use Rattle.std.specs.FinMap as finite;
    ghost use Rattle.adjacency.specs.Row.{RowMap};
    ghost use Rattle.adj_pages.specs.Stored.{stored};

    ghost Value = { RowMap };

    ghost coded = { finite.code coded_ℕ coded_ℤ };

    ghost view = { λ r. stored r.form };
}

impl PagedRow {
    // The row of these pages, or an empty one.
    fn of_lists(alloc: Global, lists: Pages<Pages<Row>>) -> Result<PagedRow, AllocError>
        ensures { IfOk result (λ r. r ≡ lists) }
    {
        if lists.len() > 0 {
            Ok(PagedRow {
                form: Form::Many(Box::new(alloc, lists)?),
            })
        } else {
            Ok(PagedRow { form: Form::Empty })
        }
    }

    // The row of a list of arcs.
    fn of_arcs(alloc: Global, row: Row) -> Result<PagedRow, AllocError>
        ensures { IfOk result (λ r. r ≡ row) }
    {
        if row.len() == 0 {
            Ok(PagedRow { form: Form::Empty })
        } else if row.len() <= PAGE_ARCS {
            Ok(PagedRow {
                form: Form::One(Box::new(alloc, row)?),
            })
        } else {
            PagedRow::of_lists(alloc, lists_of(alloc, row)?)
        }
    }
}

// The arcs of a row in lists of pages.
fn lists_of(alloc: Global, row: Row) -> Result<Pages<Pages<Row>>, AllocError>
    ensures { IfOk result (λ r. r ≡ row) }
{
    let rows = pages_of(alloc, row)?;
    let pages = Pages::of_pages(alloc, rows)?;
    let lists = pages.split(alloc)?;
    let all = Pages::of_pages(alloc, lists)?;
    Ok(all)
}

impl Arcs for PagedRow {
    ghost arcs = { λ row. row };

    fn none(_alloc: Global) -> Self {
        PagedRow { form: Form::Empty }
    }

    fn of_row(alloc: Global, row: Row) -> Result<Self, AllocError> {
        PagedRow::of_arcs(alloc, row)
    }

    fn degree(&self) -> usize {
        match &self.form {
            Form::Empty => 0,
            Form::One(row) => row.len(),
            Form::Many(lists) => lists.len(),
        }
    }

    fn weight(&self, end: u32) -> Option<i64> {
        match &self.form {
            Form::Empty => None,
            Form::One(row) => row.get(end),
            Form::Many(lists) => lists.get(end),
        }
    }

    #[inline]
    fn arc(&self, k: usize) -> (u32, i64) {
        match &self.form {
            Form::Empty => NO_ARC,
            Form::One(row) => row.at(k),
            Form::Many(lists) => lists.at(k),
        }
    }

    #[inline]
    fn arc_near(&self, k: usize, near: &mut Near) -> (u32, i64) {
        match &self.form {
            Form::Empty => NO_ARC,
            Form::One(row) => row.at(k),
            Form::Many(lists) => {
                let (arc, page) = lists.at_near(k, near.page);
                near.page = page;
                arc
            }
        }
    }

    fn patched(&self, alloc: Global, patch: &[(u32, Option<i64>)]) -> Result<Self, AllocError> {
        match &self.form {
            Form::Empty => patched_row(alloc, &Row::new(alloc), patch),
            Form::One(row) => patched_row(alloc, row, patch),
            Form::Many(lists) => patched_lists(alloc, lists, patch),
        }
    }
}

// A row on one page with a patch put over it.
fn patched_row(
    alloc: Global,
    row: &Row,
    patch: &[(u32, Option<i64>)],
) -> Result<PagedRow, AllocError>
    requires { IsPatch patch.now }
    ensures { IfOk result (λ r. r ≡ merged_row row.now patch.now) }
{
    let merged = row.merged(alloc, patch)?;
    let made = PagedRow::of_arcs(alloc, merged)?;
    Ok(made)
}

// A row in lists of pages with a patch put over it.
fn patched_lists(
    alloc: Global,
    lists: &Pages<Pages<Row>>,
    patch: &[(u32, Option<i64>)],
) -> Result<PagedRow, AllocError>
    requires { IsPatch patch.now }
    ensures { IfOk result (λ r. r ≡ merged_row lists.now patch.now) }
{
    if lists.len() > 0 {
        let edited = lists.patched(alloc, patch)?;
        let made = PagedRow::of_lists(alloc, edited)?;
        Ok(made)
    } else {
        let none = Row::new(alloc);
        patched_row(alloc, &none, patch)
    }
}
