// The sources of an iteration.
ghost use Rattle.std.specs.Prelude.{◌≡◌, ◌<◌, ◌≤◌, ◌+◌, map, All, IfOk};
ghost use Rattle.bolt_base.specs.Graph.{vertices};
ghost use Rattle.run_model.specs.Steps.{dirty, step};
ghost use Rattle.refine_rows.specs.Over.{IsChangeOver};
ghost use Rattle.refine_rows.specs.Progress.{IsRefinedTo};
ghost use Rattle.refine_tasks.specs.Sides.{side_of};

use crate::before::{old_attr, old_degree, value_before};
use crate::search::{Hints, vertex_near};
use adjacency::{Adjacency, Change};
use agg_history::{History, Overlay};
use bolt_base::{Items, Memory};
use edge_map::{Source, TaskSourceList};
use refine_rows::{OldGraph, laid_value};
use std::alloc::Global;
use vertex_expr::Program;

// What a vertex has on both sides of an iteration.
fn source_of<O: OldGraph, A: Adjacency>(
    program: &Program,
    graph: &A,
    change: &Change,
    history: &History,
    overlay: &Overlay,
    i: u32,
    dirty_vertices: &[u32],
    near: Hints,
    u: u32,
) -> Source
    requires change { IsChangeOver program.now O.graph (A.plain graph.now) change.now }
    requires refined { IsRefinedTo program.now O.graph (A.plain graph.now) history.now
        overlay.now i }
    requires some { 1 ≤ i }
    requires low { i ≤ history.now.cut + 1 }
    requires sources { dirty_vertices.now
        ≡ dirty program.now (step program.now O.graph (A.plain graph.now) i) }
    requires vertex { u < vertices (A.plain graph.now) }
    ensures { result ≡ side_of program.now (step program.now O.graph (A.plain graph.now) i) u }
{
    Source {
        vertex: u,
        old: value_before::<O, A>(program, graph, history, overlay, i, u),
        new: laid_value::<O, A>(program, graph, history, overlay, i - 1, u),
        old_degree: old_degree::<O, A>(graph, change, near.touched, u),
        new_degree: graph.out_degree(u),
        old_attr: old_attr::<O, A>(graph, change, u),
        new_attr: graph.attr(u),
        dirty: vertex_near(dirty_vertices, near.dirty, u).is_ok(),
    }
}

/// What these vertices have on both sides of an iteration.
pub(crate) fn sources_of<O: OldGraph, A: Adjacency>(
    alloc: Global,
    program: &Program,
    graph: &A,
    change: &Change,
    history: &History,
    overlay: &Overlay,
    i: u32,
    dirty_vertices: &[u32],
    us: &[u32],
) -> Result<TaskSourceList, Memory>
    requires change { IsChangeOver program.now O.graph (A.plain graph.now) change.now }
    requires refined { IsRefinedTo program.now O.graph (A.plain graph.now) history.now
        overlay.now i }
    requires some { 1 ≤ i }
    requires low { i ≤ history.now.cut + 1 }
    requires sources { dirty_vertices.now
        ≡ dirty program.now (step program.now O.graph (A.plain graph.now) i) }
    requires vertices { All (λ u. u < vertices (A.plain graph.now)) us.now }
    ensures { IfOk result (λ xs. xs
        ≡ map (side_of program.now (step program.now O.graph (A.plain graph.now) i)) us.now) }
{
    let mut sources = Vec::with_capacity(alloc, us.len())?;
    let touched = change.sources.as_slice();
    let mut near = Hints {
        touched: 0,
        dirty: 0,
    };
    for &u in us {
        let source = source_of::<O, A>(
            program,
            graph,
            change,
            history,
            overlay,
            i,
            dirty_vertices,
            near,
            u,
        );
        near = near.past(touched, dirty_vertices, u);
        sources.push(source)?;
    }
    Ok(Items::from_vec(sources))
}
