// The successors of a vertex.
ghost use Rattle.std.specs.Prelude.{◌≡◌, ℕ, ◌+◌, ◌<◌, ◌^◌, ◌||◌, ◌==◌, false, OnOk, OnErr};
ghost use Rattle.graph_text.specs.EdgeIndex.{has};

use bolt_base::Memory;
use std::alloc::Global;
use std::collections::BTreeSet;

// The most successors of a vertex that have their place beside their number.
const NEAR: usize = 15;

/// The successors of a vertex: their number, the first 15 in the order in which they came, and the
/// others in an ordered set.
/// So most look-ups touch one piece of memory, and each takes few steps however many successors
/// there are.
#[derive(Drop)]
pub struct Successors {
    pub count: u32,
    pub near: [u32; NEAR],
    pub far: BTreeSet<u32>,
}

impl Successors {
    /// No successor.
    pub fn new(alloc: Global) -> Successors
        ensures none { (v : ℕ) → has result v ≡ false }
        ensures count { result.count ≡ 0 }
    {
        Successors {
            count: 0,
            near: [0; NEAR],
            far: BTreeSet::new(alloc),
        }
    }

    /// Whether the vertex is one of them.
    pub fn contains(&self, vertex: u32) -> bool
        ensures { result ≡ has self.now vertex }
    {
        let count = NEAR.min(self.count as usize);
        self.near[..count].contains(&vertex) || self.far.contains(&vertex)
    }

    /// Puts in a vertex that isn't one of them.
    pub fn put(&mut self, vertex: u32) -> Result<(), Memory>
        requires fits { self.old.count + 1 < 2 ^ 32 }
        ensures put { OnOk result ((v : ℕ) → has self.new v ≡ ((vertex == v) || has self.old v)) }
        ensures count { OnOk result (self.new.count ≡ self.old.count + 1) }
        ensures kept { OnErr result ((v : ℕ) → has self.new v ≡ has self.old v) }
        ensures same_count { OnErr result (self.new.count ≡ self.old.count) }
    {
        let count = self.count as usize;
        if count < NEAR {
            self.near[count] = vertex;
        } else {
            self.far.insert(vertex)?;
        }
        self.count += 1;
        Ok(())
    }
}
