// Vertices that were found, each once.
ghost use Rattle.std.specs.Prelude.{◌≡◌, ◌<◌, ◌==◌, [], true, false, filter, IfOk};
ghost use Rattle.std.specs.Prelude.{slice_index_or, slice_set};
ghost use Rattle.std.specs.List.{range_with_len};
ghost use Rattle.pull_targets.specs.EndList.{AreFound, is_found};

use bolt_base::Memory;
use std::alloc::Global;
use std::marker::Model;

/// Vertices in the order of finding. One that has a mark stands here once, others as often as they
/// were found.
#[derive(Drop)]
pub struct EndList {
    vertices: u32,
    marks: Vec<bool>,
    ends: Vec<u32>,
}

impl Model for EndList {
    ghost use Rattle.pull_targets.specs.EndList.{AreMarked, EndState};

    ghost Value = { EndState };

    ghost view = { λ l. record { vertices = l.vertices; ends = l.ends.items } };

    ghost invariant = { λ l. AreMarked l.vertices l.marks.items l.ends.items };
}

impl EndList {
    /// None was found, of so many vertices, of which the first have marks.
    pub fn new(alloc: Global, vertices: u32, marks: u32) -> Result<EndList, Memory>
        ensures { IfOk result (λ l. l ≡ record { vertices = vertices; ends = [] }) }
    {
        Ok(EndList {
            vertices,
            marks: vec![in alloc; false; marks as usize]?,
            ends: Vec::new(alloc),
        })
    }

    /// Finds a vertex. The list is of no further use after `Memory`.
    #[inline]
    pub fn find(&mut self, v: u32) -> Result<(), Memory>
        requires vertex { v < self.old.vertices }
        ensures found { IfOk result (λ _. AreFound self.old (λ w. v == w) self.new) }
    {
        if !is_set(&self.marks, v) {
            self.ends.push(v)?;
            set_mark(&mut self.marks, v);
        }
        Ok(())
    }

    /// The vertices that were found, rising, each once.
    pub fn into_rising(self) -> Vec<u32>
        ensures { result.items ≡ filter (is_found self.ends) (range_with_len 0 self.vertices) }
    {
        let EndList {
            vertices: _,
            marks: _,
            mut ends,
        } = self;
        ends.sort_unstable();
        ends.dedup();
        ends
    }
}

// Whether a vertex has a mark that is set.
#[inline]
fn is_set(marks: &[bool], v: u32) -> bool
    ensures { result ≡ slice_index_or marks.now v false }
{
    (v as usize) < marks.len() && marks[v as usize]
}

// Sets the mark of a vertex that has one.
#[inline]
fn set_mark(marks: &mut [bool], v: u32)
    ensures { marks.new ≡ slice_set marks.old v true }
{
    if (v as usize) < marks.len() {
        marks[v as usize] = true;
    }
}
