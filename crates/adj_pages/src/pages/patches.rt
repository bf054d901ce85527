// How pages are put together, shared, edited and split.
ghost use Rattle.std.specs.Prelude.{◌≡◌, suc, take, ◌<◌, ◌≤◌, ◌++◌, length, IfOk, OnOk, OnErr, map};
ghost use Rattle.std.specs.List.{All};
ghost use Rattle.std.specs.FinMap as finite;
ghost use Rattle.std.specs.Arc.{arc_value};
ghost use Rattle.adjacency.specs.Row.{IsRow, end_at};
ghost use Rattle.adjacency.specs.Merge.{IsPatch, merged};
ghost use Rattle.adj_pages.specs.Index.{joined, mark_at, IsIndex, IsCut, IsNextCut};
ghost use Rattle.adj_pages.specs.Marked.{marks};

use super::index::{first_at, page_at, size_at};
use super::{Entry, MOST_PAGES, Page, Pages};
use std::alloc::{AllocError, Global};
use std::mem;
use std::sync::Arc;

impl<P: Page> Pages<P> {
    /// The pages, of which each has arcs, side by side.
    pub fn of_pages(alloc: Global, pages: Vec<P>) -> Result<Pages<P>, AllocError>
        requires some { All (λ p. 0 < finite.len (P.arcs p)) pages.items }
        requires rising { IsRow (joined (map P.arcs pages.items)) }
        ensures { IfOk result (λ p. finite.entries p ≡ joined (map P.arcs pages.items)) }
    {
        let mut made = Pages::new(alloc);
        made.push_pages(alloc, pages)?;
        Ok(made)
    }

    /// The same arcs, in lists of at most so many pages. A list that is too long is split into
    /// halves, or into several.
    pub fn split(self, alloc: Global) -> Result<Vec<Pages<P>>, AllocError>
        ensures arcs { IfOk result (λ v. joined v.items ≡ finite.entries self) }
        ensures some { IfOk result (λ v. All (λ p. 0 < finite.len p) v.items) }
    {
        let count = self.index.len();
        if count > MOST_PAGES * 2 {
            self.pieces(alloc, MOST_PAGES / 4 * 3)
        } else if count > MOST_PAGES {
            self.pieces(alloc, count.div_ceil(2))
        } else {
            let mut all = Vec::new(alloc);
            push_some(&mut all, self)?;
            Ok(all)
        }
    }

    // The same arcs, in lists of so many pages.
    fn pieces(&self, alloc: Global, size: usize) -> Result<Vec<Pages<P>>, AllocError>
        ensures arcs { IfOk result (λ v. joined v.items ≡ finite.entries self.now) }
        ensures some { IfOk result (λ v. All (λ p. 0 < finite.len p) v.items) }
    {
        let mut done = Vec::new(alloc);
        let mut last = Pages::new(alloc);
        for i in 0..self.index.len() {
            close_full(alloc, &mut done, &mut last, size)?;
            last.share(&self.index, self.count, i)?;
        }
        push_some(&mut done, last)?;
        Ok(done)
    }

    // Appends a page of so many arcs, of which the first one has this end.
    fn push(&mut self, first: u32, count: usize, part: Arc<P>) -> Result<(), AllocError>
        requires some { 0 < count }
        requires count { count ≡ finite.len (P.arcs (arc_value part)) }
        requires first { first ≡ end_at (finite.entries (P.arcs (arc_value part))) 0 }
        requires rising { IsRow (finite.entries self.old
            ++ finite.entries (P.arcs (arc_value part))) }
        ensures ok { OnOk result (finite.entries self.new ≡ finite.entries self.old
            ++ finite.entries (P.arcs (arc_value part))) }
        ensures err { OnErr result (self.new ≡ self.old) }
    {
        let before = self.count;
        match before.checked_add(count) {
            Some(total) => {
                self.index.push(Entry {
                    first,
                    before,
                    part,
                })?;
                self.count = total;
                Ok(())
            }
            None => Err(AllocError),
        }
    }

    // Appends a page.
    fn push_page(&mut self, alloc: Global, page: P) -> Result<(), AllocError>
        requires some { 0 < finite.len (P.arcs page) }
        requires rising { IsRow (finite.entries self.old ++ finite.entries (P.arcs page)) }
        ensures { OnOk result (finite.entries self.new ≡ finite.entries self.old
            ++ finite.entries (P.arcs page)) }
    {
        let count = page.len();
        let (first, _) = page.at(0);
        let part = Arc::new(alloc, page)?;
        self.push(first, count, part)
    }

    // Appends pages.
    fn push_pages(&mut self, alloc: Global, pages: Vec<P>) -> Result<(), AllocError>
        requires some { All (λ p. 0 < finite.len (P.arcs p)) pages.items }
        requires rising { IsRow (finite.entries self.old ++ joined (map P.arcs pages.items)) }
        ensures { OnOk result (finite.entries self.new ≡ finite.entries self.old
            ++ joined (map P.arcs pages.items)) }
    {
        for page in pages {
            self.push_page(alloc, page)?;
        }
        Ok(())
    }

    // Appends the i-th page of an index, which is shared.
    fn share(&mut self, index: &[Entry<P>], count: usize, i: usize) -> Result<(), AllocError>
        requires index { IsIndex (marks P.arcs index.now) count }
        requires inside { i < length index.now }
        requires rising { IsRow (finite.entries self.old
            ++ finite.entries (mark_at (marks P.arcs index.now) i).arcs) }
        ensures { OnOk result (finite.entries self.new ≡ finite.entries self.old
            ++ finite.entries (mark_at (marks P.arcs index.now) i).arcs) }
    {
        let first = first_at(index, i);
        let size = size_at(index, count, i);
        let part = Arc::try_clone(&index[i].part)?;
        self.push(first, size, part)
    }

    // Appends the i-th page of an index, with edits put over it.
    fn add(
        &mut self,
        alloc: Global,
        index: &[Entry<P>],
        count: usize,
        i: usize,
        edits: &[(u32, Option<i64>)],
    ) -> Result<(), AllocError>
        requires index { IsIndex (marks P.arcs index.now) count }
        requires inside { i < length index.now }
        requires edits { IsPatch edits.now }
        requires rising { IsRow (finite.entries self.old
            ++ merged (finite.entries (mark_at (marks P.arcs index.now) i).arcs) edits.now) }
        ensures { OnOk result (finite.entries self.new ≡ finite.entries self.old
            ++ merged (finite.entries (mark_at (marks P.arcs index.now) i).arcs) edits.now) }
    {
        if edits.is_empty() {
            self.share(index, count, i)
        } else {
            let pages = page_at(index, i).edited(alloc, edits)?;
            self.push_pages(alloc, pages)
        }
    }

    /// The arcs with edits put over them. Pages without edits are shared.
    pub fn patched(
        &self,
        alloc: Global,
        edits: &[(u32, Option<i64>)],
    ) -> Result<Pages<P>, AllocError>
        requires some { 0 < finite.len self.now }
        requires edits { IsPatch edits.now }
        ensures { IfOk result (λ p. finite.entries p ≡ merged (finite.entries self.now) edits.now) }
    {
        let mut made = Pages::new(alloc);
        let mut from = 0usize;
        for i in 0..self.index.len() {
            let upto = cut_after(&self.index, i, edits, from);
            made.add(alloc, &self.index, self.count, i, &edits[from..upto])?;
            from = upto;
        }
        Ok(made)
    }
}

// Appends pages that have arcs.
fn push_some<P: Page>(done: &mut Vec<Pages<P>>, pages: Pages<P>) -> Result<(), AllocError>
    requires { All (λ p. 0 < finite.len p) done.old.items }
    ensures arcs { OnOk result (joined done.new.items ≡ joined done.old.items
        ++ finite.entries pages) }
    ensures some { OnOk result (All (λ p. 0 < finite.len p) done.new.items) }
{
    if pages.len() > 0 {
        done.push(pages)?;
        Ok(())
    } else {
        Ok(())
    }
}

// Appends the last pages to the others if there are so many, and begins with none.
fn close_full<P: Page>(
    alloc: Global,
    done: &mut Vec<Pages<P>>,
    last: &mut Pages<P>,
    size: usize,
) -> Result<(), AllocError>
    requires { All (λ p. 0 < finite.len p) done.old.items }
    ensures arcs { OnOk result (joined done.new.items ++ finite.entries last.new
        ≡ joined done.old.items ++ finite.entries last.old) }
    ensures some { OnOk result (All (λ p. 0 < finite.len p) done.new.items) }
{
    if last.index.len() >= size {
        let full = mem::replace(last, Pages::new(alloc));
        push_some(done, full)?;
        Ok(())
    } else {
        Ok(())
    }
}

// The place after the edits of the i-th page.
fn cut_after<P: Page>(
    index: &[Entry<P>],
    i: usize,
    edits: &[(u32, Option<i64>)],
    from: usize,
) -> usize
    requires inside { i < length index.now }
    requires edits { IsPatch edits.now }
    requires within { from ≤ length edits.now }
    requires passed { suc i < length index.now
        → All (λ e. e.0 < (mark_at (marks P.arcs index.now) (suc i)).first) (take from edits.now) }
    ensures { IsNextCut (marks P.arcs index.now) i edits.now from result }
{
    if i + 1 < index.len() {
        cut_at(edits, from, first_at(index, i + 1))
    } else {
        edits.len()
    }
}

// The place after the edits below an end.
fn cut_at(edits: &[(u32, Option<i64>)], from: usize, end: u32) -> usize
    requires edits { IsPatch edits.now }
    requires within { from ≤ length edits.now }
    requires passed { All (λ e. e.0 < end) (take from edits.now) }
    ensures later { from ≤ result }
    ensures cut { IsCut end result edits.now }
{
    let mut at = from;
    while at < edits.len() && edits[at].0 < end {
        at += 1;
    }
    at
}
