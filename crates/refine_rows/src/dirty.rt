// The vertices that contribute otherwise than before at an iteration.
ghost use Rattle.std.specs.Prelude.{◌≡◌, ◌+◌, ◌-◌, ◌<◌, ◌≤◌, ◌&&◌, IfOk};
ghost use Rattle.bolt_base.specs.Differs.{attr_changed, degree_changed};
ghost use Rattle.bolt_base.specs.Graph.{outdeg, vertices};
ghost use Rattle.run_model.specs.Refined.{IsRefined};
ghost use Rattle.run_model.specs.Steps.{dirty, reads_attr, reads_outdeg, step, value_changed};
ghost use Rattle.agg_history.specs.Puts.{put_at};
ghost use Rattle.refine_rows.specs.Over.{AreOver, IsChangeOver};
ghost use Rattle.refine_rows.specs.Picked.{old_only, vertices_where};
ghost use Rattle.refine_rows.specs.Progress.{IsLaidOver, IsRefinedTo};
ghost use Rattle.refine_rows.specs.Seen.{changed_values};

use crate::lists::attr_vertices;
use crate::merging::merge;
use crate::old_graph::OldGraph;
use crate::reads::{reads_attr, reads_outdeg};
use adjacency::{Adjacency, Change};
use agg_history::{History, Overlay};
use bolt_base::{Memory, Touched};
use std::alloc::Global;
use vertex_expr::Program;

// Whether a vertex is an old one whose value at the iteration before `i` is another one than it
// was.
fn has_other_value<O: OldGraph, A: Adjacency>(
    program: &Program,
    graph: &A,
    history: &History,
    overlay: &Overlay,
    i: u32,
    u: u32,
) -> bool
    requires over { AreOver program.now O.graph (A.plain graph.now) }
    requires laid { IsLaidOver program.now O.graph (A.plain graph.now) history.now overlay.now }
    requires some { 1 ≤ i }
    requires low { i ≤ history.now.cut + 1 }
    requires vertex { u < vertices (A.plain graph.now) }
    requires refined { IsRefined program.now O.graph (A.plain graph.now)
        (put_at overlay.now.puts) (i - 1) u }
    ensures { result ≡ old_only O.graph
        (value_changed (step program.now O.graph (A.plain graph.now) i)) u }
{
    if history.vertices() <= u {
        return false;
    }
    let lanes = program.entries().ranges.len() as u32;
    for lane in 0..lanes {
        let was = history.val(i - 1, u, lane);
        let now = overlay.val(history, i - 1, u, lane);
        if was != now {
            return true;
        }
    }
    false
}

/// The old vertices whose value at the iteration before `i` is another one than it was, rising.
/// They are looked for among those that were put there.
pub fn changed_vertices<O: OldGraph, A: Adjacency>(
    alloc: Global,
    program: &Program,
    graph: &A,
    history: &History,
    overlay: &Overlay,
    i: u32,
) -> Result<Vec<u32>, Memory>
    requires over { AreOver program.now O.graph (A.plain graph.now) }
    requires refined { IsRefinedTo program.now O.graph (A.plain graph.now) history.now
        overlay.now i }
    requires some { 1 ≤ i }
    requires low { i ≤ history.now.cut + 1 }
    ensures { IfOk result (λ us. us.items
        ≡ changed_values program.now O.graph (A.plain graph.now) i) }
{
    let put = overlay.vertices_at(i - 1);
    let mut us = Vec::with_capacity(alloc, put.len())?;
    for &u in put {
        if has_other_value::<O, A>(program, graph, history, overlay, i, u) {
            us.push(u)?;
        }
    }
    Ok(us)
}

// Whether a vertex is an old one with more or fewer out-edges than before.
fn has_other_degree<O: OldGraph, A: Adjacency>(
    graph: &A,
    old_vertices: u32,
    touched: Touched,
) -> bool
    requires vertex { touched.vertex < vertices (A.plain graph.now) }
    requires degree { touched.old_degree ≡ outdeg O.graph touched.vertex }
    requires old { old_vertices ≡ vertices O.graph }
    ensures { result ≡ old_only O.graph (degree_changed O.graph (A.plain graph.now))
        touched.vertex }
{
    if old_vertices <= touched.vertex {
        return false;
    }
    touched.old_degree != graph.out_degree(touched.vertex)
}

// The old vertices with more or fewer out-edges than before, rising, where out-degrees are read.
fn degree_changes<O: OldGraph, A: Adjacency>(
    alloc: Global,
    program: &Program,
    graph: &A,
    change: &Change,
) -> Result<Vec<u32>, Memory>
    requires { IsChangeOver program.now O.graph (A.plain graph.now) change.now }
    ensures { IfOk result (λ us. us.items ≡ vertices_where (vertices O.graph) (λ u.
        degree_changed O.graph (A.plain graph.now) u && reads_outdeg program.now)) }
{
    let mut us = Vec::new(alloc);
    if !reads_outdeg(program) {
        return Ok(us);
    }
    for touched in change.sources.as_slice() {
        if has_other_degree::<O, A>(graph, change.old_vertices, *touched) {
            us.push(touched.vertex)?;
        }
    }
    Ok(us)
}

// The old vertices with another attribute than before, rising, where attributes are read.
fn attr_changes<O: OldGraph, A: Adjacency>(
    alloc: Global,
    program: &Program,
    graph: &A,
    change: &Change,
) -> Result<Vec<u32>, Memory>
    requires { IsChangeOver program.now O.graph (A.plain graph.now) change.now }
    ensures { IfOk result (λ us. us.items ≡ vertices_where (vertices O.graph) (λ u.
        attr_changed O.graph (A.plain graph.now) u && reads_attr program.now)) }
{
    if !reads_attr(program) {
        return Ok(Vec::new(alloc));
    }
    let us = attr_vertices(alloc, change)?;
    Ok(us)
}

/// The dirty vertices of an iteration, rising, from those whose value changed.
pub fn dirty_vertices<O: OldGraph, A: Adjacency>(
    alloc: Global,
    program: &Program,
    graph: &A,
    change: &Change,
    i: u32,
    changed: &[u32],
) -> Result<Vec<u32>, Memory>
    requires change { IsChangeOver program.now O.graph (A.plain graph.now) change.now }
    requires changed { changed.now ≡ changed_values program.now O.graph (A.plain graph.now) i }
    ensures { IfOk result (λ us. us.items
        ≡ dirty program.now (step program.now O.graph (A.plain graph.now) i)) }
{
    let degrees = degree_changes::<O, A>(alloc, program, graph, change)?;
    let attrs = attr_changes::<O, A>(alloc, program, graph, change)?;
    let moved = merge(alloc, changed, &degrees)?;
    let dirty = merge(alloc, &moved, &attrs)?;
    Ok(dirty)
}
