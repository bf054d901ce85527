// How arcs in shared pages are read.
ghost use Rattle.std.specs.Prelude.{◌≡◌, ◌<◌, Some, slice_get};
ghost use Rattle.std.specs.FinMap as finite;

use super::index::{before_at, page_at, place_for, place_near, place_of};
use super::{Page, Pages};

impl<P: Page> Pages<P> {
    /// The k-th arc.
    pub fn at(&self, k: usize) -> (u32, i64)
        requires { k < finite.len self.now }
        ensures { slice_get (finite.entries self.now) k ≡ Some result }
    {
        let i = place_of(&self.index, k);
        let before = before_at(&self.index, i);
        page_at(&self.index, i).at(k - before)
    }

    /// The weight of an end, if it has one.
    pub fn get(&self, end: u32) -> Option<i64>
        ensures { result ≡ finite.get self.now end }
    {
        if self.count == 0 {
            None
        } else {
            let i = place_for(&self.index, end);
            page_at(&self.index, i).get(end)
        }
    }

    /// The k-th arc, at once where the hint is the one that the read of the arc before answered;
    /// and a hint.
    pub fn at_near(&self, k: usize, hint: u32) -> ((u32, i64), u32)
        requires { k < finite.len self.now }
        ensures { slice_get (finite.entries self.now) k ≡ Some result.0 }
    {
        let hints = P::hints();
        let i = place_near(&self.index, k, (hint / hints) as usize);
        let before = before_at(&self.index, i);
        let (arc, inner) = page_at(&self.index, i).at_near(k - before, hint % hints);
        (arc, hint_of(i, hints, inner))
    }
}

// The hint of a place on the i-th page. Any number would be right.
fn hint_of(i: usize, hints: u32, inner: u32) -> u32 {
    match u32::try_from(i) {
        Ok(i) => i.wrapping_mul(hints).wrapping_add(inner),
        Err(_) => 0,
    }
}
