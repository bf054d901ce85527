// Pages that split, are taken back and are read, beside the graph by rows.
ghost use Rattle.std.specs.Prelude.{◌<◌};

use crate::course::{Course, no_vertices};
use crate::plain::Plain;
use crate::reading::{found, out_edge};
use adj_pages::{PagedGraph, PagedRow};
use adjacency::{Adjacency, Arcs, MOST_EDITS, Near, Row, RowGraph};
use bolt_base::{Edge, Edit, Limits, Memory};
use std::alloc::{AllocError, Global};
use std::test::Fail;

// Edges between the first vertex and others, out of it or into it.
#[derive(Clone, Copy)]
struct Star {
    rays: u32,
    is_out: bool,
}

impl Star {
    // The edge between the first vertex and another one.
    fn edge(self, v: u32) -> Edge {
        let (src, dst) = if self.is_out { (0, v) } else { (v, 0) };
        Edge {
            src,
            dst,
            weight: 1,
        }
    }

    // Room for these edges.
    fn limits(self) -> Limits {
        Limits {
            vertices: u32::MAX,
            degree: self.rays,
            edges: self.rays,
            weight_lo: 0,
            weight_hi: 1,
            attr_lo: 0,
            attr_hi: 0,
        }
    }

    // All vertices.
    fn vertices(self, alloc: Global) -> Result<Vec<Edit>, AllocError> {
        let mut edits = Vec::new(alloc);
        for vertex in 0..=self.rays {
            edits.push(Edit::Attr { vertex, attr: 0 })?;
        }
        Ok(edits)
    }

    // All edges, the other ends falling.
    fn falling(self, alloc: Global) -> Result<Vec<Edit>, AllocError> {
        let mut edits = Vec::new(alloc);
        for i in 0..self.rays {
            edits.push(Edit::Add(self.edge(self.rays - i)))?;
        }
        Ok(edits)
    }

    // Cuts of the edges with odd other ends.
    fn odd_cuts(self, alloc: Global) -> Result<Vec<Edit>, AllocError> {
        let mut edits = Vec::new(alloc);
        for v in 0..=self.rays {
            if v % 2 == 1 {
                let Edge { src, dst, .. } = self.edge(v);
                edits.push(Edit::Cut { src, dst })?;
            }
        }
        Ok(edits)
    }

    // Whether the vertices and edges are right, and the cuts when made, taken back and made again.
    fn is_right<R: Arcs + Drop>(self, alloc: Global) -> Result<bool, Memory> {
        let limits = self.limits();
        let mut graph: RowGraph<R> = no_vertices(alloc, limits)?;
        let mut plain = Plain::new(alloc);
        for step in 0..4u32 {
            let edits = match step {
                0 => self.vertices(alloc)?,
                1 => self.falling(alloc)?,
                _ => self.odd_cuts(alloc)?,
            };
            let is_kept = step != 2;
            let course = Course::new(alloc, &limits, &plain, &edits)?;
            if course.bad.is_some() || !course.is_run(alloc, &mut graph, &edits, is_kept) {
                return Ok(false);
            }
            if is_kept {
                plain = course.after;
            }
        }
        Ok(true)
    }
}

#[test]
fn pages_split_and_revert(rt: HostRuntime) -> Result<(), Fail> {
    for is_out in [true, false] {
        let star = Star { rays: 130, is_out };
        assert!(rt; star.is_right::<Row>(rt.alloc())?, "rows, {is_out}");
        assert!(rt; star.is_right::<PagedRow>(rt.alloc())?, "pages, {is_out}");
    }
    Ok(())
}

// Makes a batch, and keeps it or takes it back.
fn make(alloc: Global, pages: &mut PagedGraph, edits: &[Edit], is_kept: bool) -> bool {
    if pages.is_changed() || edits.len() > MOST_EDITS {
        return false;
    }
    match pages.apply(alloc, edits) {
        Ok(change) => {
            if is_kept && pages.version() < u64::MAX {
                pages.keep(change);
            } else {
                pages.revert(change);
            }
            true
        }
        Err(_) => false,
    }
}

// Whether the first vertex has so many edges, which end at every step-th one, and each is found.
fn has_rays(pages: &PagedGraph, rays: u32, step: u32) -> bool
    requires { 0 < step }
{
    if pages.vertices() == 0 || pages.edges() != rays || pages.out_degree(0) != rays {
        return false;
    }
    let mut near = Near::new();
    for k in 0..pages.out_degree(0) {
        match out_edge(pages, 0, k, &mut near) {
            Some(edge) => {
                if edge.dst / step != k + 1 || found(pages, 0, edge.dst) != Some(edge) {
                    return false;
                }
            }
            None => return false,
        }
    }
    true
}

// The star has more pages than one list of pages holds.
#[test]
fn lists_of_pages_split_and_revert(rt: HostRuntime) -> Result<(), Fail> {
    let alloc = rt.alloc();
    let star = Star {
        rays: 7000,
        is_out: true,
    };
    let mut pages: PagedGraph = no_vertices(alloc, star.limits())?;
    assert!(rt; make(alloc, &mut pages, &star.vertices(alloc)?, true));
    assert!(rt; make(alloc, &mut pages, &star.falling(alloc)?, true));
    assert!(rt; has_rays(&pages, 7000, 1));
    assert!(rt; make(alloc, &mut pages, &star.odd_cuts(alloc)?, false));
    assert!(rt; has_rays(&pages, 7000, 1));
    assert!(rt; make(alloc, &mut pages, &star.odd_cuts(alloc)?, true));
    assert!(rt; has_rays(&pages, 3500, 2));
    Ok(())
}
