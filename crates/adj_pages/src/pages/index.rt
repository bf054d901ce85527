// An index over pages: where an arc or an end stands.
ghost use Rattle.std.specs.Prelude.{◌≡◌, true, ◌<◌, length};
ghost use Rattle.std.specs.FinMap as finite;
ghost use Rattle.adj_pages.specs.Index.{mark_at, IsIndex, IsPlaceOf, IsPlaceFor};
ghost use Rattle.adj_pages.specs.Marked.{marks};

use super::{Entry, Page};

/// How many arcs the i-th page has.
pub fn size_at<P: Page>(index: &[Entry<P>], count: usize, i: usize) -> usize
    requires index { IsIndex (marks P.arcs index.now) count }
    requires inside { i < length index.now }
    ensures { result ≡ finite.len (mark_at (marks P.arcs index.now) i).arcs }
{
    let before = before_at(index, i);
    if i + 1 < index.len() {
        before_at(index, i + 1) - before
    } else {
        count - before
    }
}

/// How many arcs lie in the pages before the i-th.
pub fn before_at<P: Page>(index: &[Entry<P>], i: usize) -> usize
    requires { i < length index.now }
    ensures { result ≡ (mark_at (marks P.arcs index.now) i).before }
{
    index[i].before
}

/// The first end on the i-th page.
pub fn first_at<P: Page>(index: &[Entry<P>], i: usize) -> u32
    requires { i < length index.now }
    ensures { result ≡ (mark_at (marks P.arcs index.now) i).first }
{
    index[i].first
}

/// The i-th page.
pub fn page_at<P: Page>(index: &[Entry<P>], i: usize) -> &P
    requires { i < length index.now }
    ensures { P.arcs result.now ≡ (mark_at (marks P.arcs index.now) i).arcs }
{
    &index[i].part
}

/// The page with the k-th arc.
pub fn place_of<P: Page>(index: &[Entry<P>], k: usize) -> usize
    requires some { 0 < length index.now }
    requires begins { (mark_at (marks P.arcs index.now) 0).before ≡ 0 }
    ensures { IsPlaceOf (marks P.arcs index.now) k result }
{
    let mut low = 0;
    let mut high = index.len();
    while high - low > 1 {
        let middle = low + (high - low) / 2;
        if before_at(index, middle) <= k {
            low = middle;
        } else {
            high = middle;
        }
    }
    low
}

/// Whether the k-th arc is on the i-th page.
pub fn is_place_of<P: Page>(index: &[Entry<P>], k: usize, i: usize) -> bool
    ensures { result ≡ true → IsPlaceOf (marks P.arcs index.now) k i }
{
    if i >= index.len() || before_at(index, i) > k {
        false
    } else if i + 1 < index.len() {
        k < before_at(index, i + 1)
    } else {
        true
    }
}

/// The page with the k-th arc, found at once if it is the one that is guessed or the next one.
pub fn place_near<P: Page>(index: &[Entry<P>], k: usize, guess: usize) -> usize
    requires some { 0 < length index.now }
    requires begins { (mark_at (marks P.arcs index.now) 0).before ≡ 0 }
    ensures { IsPlaceOf (marks P.arcs index.now) k result }
{
    let next = guess.saturating_add(1);
    if is_place_of(index, k, guess) {
        guess
    } else if is_place_of(index, k, next) {
        next
    } else {
        place_of(index, k)
    }
}

/// The page with the end, if any has it.
pub fn place_for<P: Page>(index: &[Entry<P>], end: u32) -> usize
    requires { 0 < length index.now }
    ensures { IsPlaceFor (marks P.arcs index.now) end result }
{
    let mut low = 0;
    let mut high = index.len();
    while high - low > 1 {
        let middle = low + (high - low) / 2;
        if first_at(index, middle) <= end {
            low = middle;
        } else {
            high = middle;
        }
    }
    low
}
