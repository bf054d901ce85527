// What a row of a graph can do, however it stores its arcs.
ghost use Rattle.std.specs.Prelude.{◌≡◌, ◌<◌, Some, slice_get, IfOk};
ghost use Rattle.std.specs.FinMap as finite;
ghost use Rattle.adjacency.specs.Row.{RowMap};
ghost use Rattle.adjacency.specs.Merge.{IsPatch};
ghost use Rattle.adjacency.specs.Patched.{merged_row};

use crate::near::Near;
use crate::row::Row;
use std::alloc::{AllocError, Global};

/// A row: the other ends of a vertex's edges in one direction, rising, with the weights.
pub trait Arcs {
    /// The ends with their weights.
    ghost arcs: { Self → RowMap };

    /// A row without arcs.
    fn none(alloc: Global) -> Self
        ensures { arcs result ≡ finite.empty };

    /// The row that has the arcs of a list.
    fn of_row(alloc: Global, row: Row) -> Result<Self, AllocError>
        ensures { IfOk result (λ r. arcs r ≡ row) };

    /// How many arcs it has.
    fn degree(&self) -> usize
        ensures { result ≡ finite.len (arcs self.now) };

    /// The weight of an end, if it has one.
    fn weight(&self, end: u32) -> Option<i64>
        ensures { result ≡ finite.get (arcs self.now) end };

    /// The k-th arc.
    fn arc(&self, k: usize) -> (u32, i64)
        requires { k < finite.len (arcs self.now) }
        ensures { slice_get (finite.entries (arcs self.now)) k ≡ Some result };

    /// The k-th arc, at once where the hint is the one that the read of the arc before left.
    fn arc_near(&self, k: usize, near: &mut Near) -> (u32, i64)
        requires { k < finite.len (arcs self.now) }
        ensures { slice_get (finite.entries (arcs self.now)) k ≡ Some result };

    /// A new row: this one with a new weight for some ends, or none. Their numbers rise.
    fn patched(&self, alloc: Global, patch: &[(u32, Option<i64>)]) -> Result<Self, AllocError>
        requires { IsPatch patch.now }
        ensures { IfOk result (λ r. arcs r ≡ merged_row (arcs self.now) patch.now) };
}

impl Arcs for Row {
    ghost arcs = { λ row. row };

    fn none(alloc: Global) -> Self {
        Row::new(alloc)
    }

    fn of_row(_alloc: Global, row: Row) -> Result<Self, AllocError> {
        Ok(row)
    }

    fn degree(&self) -> usize {
        self.len()
    }

    fn weight(&self, end: u32) -> Option<i64> {
        self.get(end)
    }

    #[inline]
    fn arc(&self, k: usize) -> (u32, i64) {
        self.at(k)
    }

    #[inline]
    fn arc_near(&self, k: usize, _near: &mut Near) -> (u32, i64) {
        self.at(k)
    }

    fn patched(&self, alloc: Global, patch: &[(u32, Option<i64>)]) -> Result<Self, AllocError> {
        self.merged(alloc, patch)
    }
}
