// Arcs in shared pages.
ghost use Rattle.std.specs.Prelude.{◌≡◌, ◌<◌, Some, slice_get, IfOk, map};
ghost use Rattle.std.specs.List.{All};
ghost use Rattle.std.specs.FinMap as finite;
ghost use Rattle.adjacency.specs.Row.{RowMap};
ghost use Rattle.adjacency.specs.Merge.{IsPatch, merged};
ghost use Rattle.adj_pages.specs.Index.{joined};

mod index;
mod patches;
mod reads;

use std::alloc::{AllocError, Global};
use std::marker::Model;
use std::sync::Arc;

/// How many pages stand under one index, at most, where the index itself is shared.
pub const MOST_PAGES: usize = 64;

/// Some arcs of a vertex, their other ends rising.
pub trait Page: Drop {
    /// The arcs.
    ghost arcs: { Self → RowMap };

    /// How many arcs it has.
    fn len(&self) -> usize
        ensures { result ≡ finite.len (arcs self.now) };

    /// The k-th arc.
    fn at(&self, k: usize) -> (u32, i64)
        requires { k < finite.len (arcs self.now) }
        ensures { slice_get (finite.entries (arcs self.now)) k ≡ Some result };

    /// The k-th arc, at once where the hint is the one that the read of the arc before answered;
    /// and a hint.
    fn at_near(&self, k: usize, hint: u32) -> ((u32, i64), u32)
        requires { k < finite.len (arcs self.now) }
        ensures { slice_get (finite.entries (arcs self.now)) k ≡ Some result.0 };

    /// How many hints there are.
    fn hints() -> u32
        ensures { 0 < result };

    /// The weight of an end, if it has one.
    fn get(&self, end: u32) -> Option<i64>
        ensures { result ≡ finite.get (arcs self.now) end };

    /// The arcs with edits put over them, in pages that have arcs.
    fn edited(&self, alloc: Global, edits: &[(u32, Option<i64>)]) -> Result<Vec<Self>, AllocError>
        requires edits { IsPatch edits.now }
        requires held { 0 < finite.len (arcs self.now) }
        ensures arcs { IfOk result (λ v. joined (map arcs v.items)
            ≡ merged (finite.entries (arcs self.now)) edits.now) }
        ensures some { IfOk result (λ v. All (λ p. 0 < finite.len (arcs p)) v.items) };
}

/// A page, the first end in it, and how many arcs lie in the pages before it.
#[derive(Drop)]
pub struct Entry<P> {
    first: u32,
    before: usize,
    part: Arc<P>,
}

/// Arcs in pages that several rows may share, with an index. Contracts see a finite map.
#[derive(Drop)]
pub struct Pages<P: Page> {
    index: Vec<Entry<P>>,
    count: usize,
}

impl<P: Page> Model for Pages<P> {
    ghost use Rattle.std.specs.Coded.{coded_ℕ, coded_ℤ};
    ghost use Rattle.std.specs.FinMap as finite;
    ghost use Rattle.adjacency.specs.Row.{RowMap, row_map};
    ghost use Rattle.adj_pages.specs.Index.{marked, IsIndex};
    ghost use Rattle.adj_pages.specs.Marked.{marks};

    ghost Value = { RowMap };

    ghost coded = { finite.code coded_ℕ coded_ℤ };

    ghost view = { λ p. row_map (marked (marks P.arcs p.index.items)) };

    ghost invariant = { λ p. IsIndex (marks P.arcs p.index.items) p.count };
}

impl<P: Page> Page for Pages<P> {
    ghost arcs = { λ pages. pages };

    fn len(&self) -> usize {
        Pages::len(self)
    }

    fn at(&self, k: usize) -> (u32, i64) {
        Pages::at(self, k)
    }

    fn at_near(&self, k: usize, hint: u32) -> ((u32, i64), u32) {
        Pages::at_near(self, k, hint)
    }

    fn hints() -> u32 {
        P::hints().saturating_mul(MOST_PAGES as u32)
    }

    fn get(&self, end: u32) -> Option<i64> {
        Pages::get(self, end)
    }

    fn edited(
        &self,
        alloc: Global,
        edits: &[(u32, Option<i64>)],
    ) -> Result<Vec<Pages<P>>, AllocError> {
        self.patched(alloc, edits)?.split(alloc)
    }
}

impl<P: Page> Pages<P> {
    /// No arcs.
    pub fn new(alloc: Global) -> Pages<P>
        ensures { result ≡ finite.empty }
    {
        Pages {
            index: Vec::new(alloc),
            count: 0,
        }
    }

    /// How many arcs there are.
    pub fn len(&self) -> usize
        ensures { result ≡ finite.len self.now }
    {
        self.count
    }
}
