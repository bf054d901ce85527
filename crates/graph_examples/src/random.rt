// The same random edits on both graphs and on plain lists.
ghost use Rattle.std.specs.Prelude.{◌<◌};

use crate::course::{Course, no_vertices};
use crate::plain::{Plain, short};
use adj_pages::PagedGraph;
use adjacency::Graph;
use bolt_base::{Edge, Edit, Limits, Memory};
use std::alloc::{AllocError, Global};
use std::test::Fail;

// Small graphs, which are often full.
const SMALL: Limits = Limits {
    vertices: 6,
    degree: 3,
    edges: 9,
    weight_lo: -2,
    weight_hi: 2,
    attr_lo: 0,
    attr_hi: 9,
};

// Graphs with vertices of several pages.
const LARGE: Limits = Limits {
    vertices: 230,
    degree: 220,
    edges: 600,
    weight_lo: -2,
    weight_hi: 2,
    attr_lo: 0,
    attr_hi: 9,
};

// The last number of a sequence.
#[derive(Drop)]
struct Dice {
    last: u64,
}

impl Dice {
    // A number below another one.
    fn roll(&mut self, sides: u32) -> u32
        requires { 0 < sides }
        ensures { result < sides }
    {
        self.last = self
            .last
            .wrapping_mul(6364136223846793005)
            .wrapping_add(1442695040888963407);
        ((self.last >> 33) % u64::from(sides)) as u32
    }

    // A vertex, the first one half of the time, and seldom one that isn't there.
    fn vertex(&mut self, plain: &Plain) -> u32 {
        let vertices = short(plain.attrs.len());
        if vertices > 0 && self.roll(2) == 0 {
            0
        } else if vertices > 0 && self.roll(40) > 0 {
            self.roll(vertices)
        } else {
            vertices
        }
    }

    // An edit that is mostly good.
    fn edit(&mut self, plain: &Plain) -> Edit {
        let src = self.vertex(plain);
        let dst = self.vertex(plain);
        let weight = i64::from(self.roll(5)) - 2 + i64::from(self.roll(40) / 39);
        let form = self.roll(40);
        if form < 8 || plain.attrs.is_empty() {
            let vertices = short(plain.attrs.len());
            let vertex = if form < 6 { vertices } else { src };
            let attr = i64::from(self.roll(10) + self.roll(40) / 39);
            Edit::Attr { vertex, attr }
        } else if form == 8 || plain.weight(src, dst).is_some() {
            Edit::Cut { src, dst }
        } else {
            Edit::Add(Edge { src, dst, weight })
        }
    }

    // So many edits, each after those before it.
    fn edits(
        &mut self,
        alloc: Global,
        limits: &Limits,
        plain: &Plain,
        count: u32,
    ) -> Result<Vec<Edit>, AllocError> {
        let mut edits = Vec::new(alloc);
        let mut made = plain.copy(alloc)?;
        for _ in 0..count {
            let edit = self.edit(&made);
            let _bad = made.make(limits, &[edit])?;
            edits.push(edit)?;
        }
        Ok(edits)
    }
}

// How many batches were made and how many were refused, where all were as on the lists.
fn tally(
    alloc: Global,
    limits: Limits,
    batches: u32,
    most: u32,
    seed: u64,
) -> Result<Option<(u32, u32)>, Memory>
    requires { 0 < most }
{
    let mut dice = Dice { last: seed };
    let mut plain = Plain::new(alloc);
    let mut rows: Graph = no_vertices(alloc, limits)?;
    let mut pages: PagedGraph = no_vertices(alloc, limits)?;
    let mut made = 0u32;
    let mut refused = 0u32;
    for _ in 0..batches {
        let count = dice.roll(most);
        let edits = dice.edits(alloc, &limits, &plain, count)?;
        let course = Course::new(alloc, &limits, &plain, &edits)?;
        let is_kept = dice.roll(3) > 0;
        if !course.is_run(alloc, &mut rows, &edits, is_kept)
            || !course.is_run(alloc, &mut pages, &edits, is_kept)
        {
            return Ok(None);
        }
        if course.bad.is_some() {
            refused = refused.saturating_add(1);
        } else {
            made = made.saturating_add(1);
        }
        if is_kept {
            plain = course.after;
        }
    }
    Ok(Some((made, refused)))
}

#[test]
fn random_batches(rt: HostRuntime) -> Result<(), Fail> {
    for seed in 0..8u64 {
        for (limits, batches, most) in [(SMALL, 300, 8), (LARGE, 24, 60)] {
            let tallied = tally(rt.alloc(), limits, batches, most, seed)?;
            assert!(rt; tallied.is_some(), "seed {seed}");
            if let Some((made, refused)) = tallied {
                assert!(rt;
                    made > batches / 4 && refused > batches / 10,
                    "{made} {refused}"
                );
            }
        }
    }
    Ok(())
}
