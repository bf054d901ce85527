// Single batches on small graphs, with what comes of them as worked out by hand.
use crate::course::{Course, no_vertices};
use crate::plain::Plain;
use adj_pages::PagedRow;
use adjacency::{Arcs, Row, RowGraph};
use bolt_base::{AttrChange, Edge, Edit, Limits, LineCause, Memory, Touched};
use std::alloc::Global;

/// A name, edits that make a graph of no vertices, a batch, and its first bad edit with the cause.
pub type BadRow<'a> = (&'a str, &'a [Edit], &'a [Edit], u32, LineCause);

/// A name, edits that make a graph of no vertices, a batch, the edges that it adds and removes,
/// their sources, and the attributes that it changes.
pub type MadeRow<'a> = (
    &'a str,
    &'a [Edit],
    &'a [Edit],
    &'a [Edge],
    &'a [Edge],
    &'a [Touched],
    &'a [AttrChange],
);

/// Three vertices and three edges, two of them at a vertex, and small numbers.
pub const NARROW: Limits = Limits {
    vertices: 3,
    degree: 2,
    edges: 3,
    weight_lo: -5,
    weight_hi: 5,
    attr_lo: 0,
    attr_hi: 9,
};

/// Some more of each, and all numbers.
pub const WIDE: Limits = Limits {
    vertices: 8,
    degree: 8,
    edges: 64,
    weight_lo: i64::MIN,
    weight_hi: i64::MAX,
    attr_lo: i64::MIN,
    attr_hi: i64::MAX,
};

/// An edge.
pub fn edge(src: u32, dst: u32, weight: i64) -> Edge {
    Edge { src, dst, weight }
}

/// An addition.
pub fn add(src: u32, dst: u32, weight: i64) -> Edit {
    Edit::Add(edge(src, dst, weight))
}

/// A cut.
pub fn cut(src: u32, dst: u32) -> Edit {
    Edit::Cut { src, dst }
}

/// An attribute that is set, or a vertex more.
pub fn attr(vertex: u32, attr: i64) -> Edit {
    Edit::Attr { vertex, attr }
}

/// A source that had so many edges.
pub fn source(vertex: u32, old_degree: u32) -> Touched {
    Touched { vertex, old_degree }
}

/// An attribute that changed.
pub fn turned(vertex: u32, old: i64, new: i64) -> AttrChange {
    AttrChange { vertex, old, new }
}

// What comes of a batch: the lists of its change, or the first bad edit.
#[derive(Clone, Copy)]
enum Wanted<'a> {
    Made {
        added: &'a [Edge],
        removed: &'a [Edge],
        sources: &'a [Touched],
        attrs: &'a [AttrChange],
    },
    Bad(u32, LineCause),
}

// A batch on the graph that other edits make of no vertices.
#[derive(Clone, Copy)]
struct Case<'a> {
    limits: Limits,
    before: &'a [Edit],
    batch: &'a [Edit],
    wanted: Wanted<'a>,
}

impl<'a> Wanted<'a> {
    // Whether this comes of a batch.
    fn is_of(&self, course: &Course) -> bool {
        match *self {
            Wanted::Made {
                added,
                removed,
                sources,
                attrs,
            } => {
                course.bad.is_none()
                    && course.change.added.as_slice() == added
                    && course.change.removed.as_slice() == removed
                    && course.change.sources.as_slice() == sources
                    && course.change.attrs.as_slice() == attrs
            }
            Wanted::Bad(index, cause) => course.bad == Some((index, cause)),
        }
    }
}

impl<'a> Case<'a> {
    // Whether what is wanted comes of the batch on both graphs.
    fn holds(&self, alloc: Global) -> Result<bool, Memory> {
        Ok(self.holds_on::<Row>(alloc)? && self.holds_on::<PagedRow>(alloc)?)
    }

    // Whether it comes of the batch when it is made, taken back and made again.
    fn holds_on<R: Arcs + Drop>(&self, alloc: Global) -> Result<bool, Memory> {
        let limits = self.limits;
        let mut graph: RowGraph<R> = no_vertices(alloc, limits)?;
        let first = Course::new(alloc, &limits, &Plain::new(alloc), self.before)?;
        if first.bad.is_some() || !first.is_run(alloc, &mut graph, self.before, true) {
            return Ok(false);
        }
        let course = Course::new(alloc, &limits, &first.after, self.batch)?;
        Ok(
            self.wanted.is_of(&course)
                && course.is_run(alloc, &mut graph, self.batch, false)
                && course.is_run(alloc, &mut graph, self.batch, true),
        )
    }
}

/// How many of the rows hold, up to the first one that doesn't.
pub fn bad_rows(alloc: Global, limits: Limits, rows: &[BadRow]) -> Result<usize, Memory> {
    for k in 0..rows.len() {
        let (_, before, batch, index, cause) = rows[k];
        let case = Case {
            limits,
            before,
            batch,
            wanted: Wanted::Bad(index, cause),
        };
        if !case.holds(alloc)? {
            return Ok(k);
        }
    }
    Ok(rows.len())
}

/// How many of the rows hold, up to the first one that doesn't.
pub fn made_rows(alloc: Global, limits: Limits, rows: &[MadeRow]) -> Result<usize, Memory> {
    for k in 0..rows.len() {
        let (_, before, batch, added, removed, sources, attrs) = rows[k];
        let wanted = Wanted::Made {
            added,
            removed,
            sources,
            attrs,
        };
        let case = Case {
            limits,
            before,
            batch,
            wanted,
        };
        if !case.holds(alloc)? {
            return Ok(k);
        }
    }
    Ok(rows.len())
}
