// Iteration 0.
ghost use Rattle.std.specs.Prelude.{◌≡◌, ◌<◌, length, slice_get, Some, [], OnOk, OnErr};
ghost use Rattle.std.specs.Prelude.{◌+◌, ◌++◌, ◌∷◌};
ghost use Rattle.refine_rows.specs.Over.{AreOver, IsChangeOver};
ghost use Rattle.refine_rows.specs.Progress.{again, vertices_put, IsRefinedTo, IsRefinedWithin};

use crate::applied::begun_vertices;
use crate::old_graph::OldGraph;
use adjacency::{Adjacency, Change};
use agg_history::{History, Overlay};
use bolt_base::{Lanes, Memory};
use std::alloc::Global;
use vertex_expr::Program;
use vertex_steps::first_value;

// Puts the first value of the next vertex whose init is evaluated again.
fn put_first<O: OldGraph, A: Adjacency>(
    program: &Program,
    graph: &A,
    history: &History,
    overlay: &mut Overlay,
    v: u32,
) -> Result<(), Memory>
    requires over { AreOver program.now O.graph (A.plain graph.now) }
    requires within { IsRefinedWithin program.now O.graph (A.plain graph.now) history.now
        overlay.old 0 }
    requires next { slice_get (again program.now O.graph (A.plain graph.now) 0)
        (length (vertices_put overlay.old 0)) ≡ Some v }
    ensures within { OnOk result (IsRefinedWithin program.now O.graph (A.plain graph.now)
        history.now overlay.new 0) }
    ensures put { OnOk result (vertices_put overlay.new 0
        ≡ vertices_put overlay.old 0 ++ v ∷ []) }
    ensures err { OnErr result (overlay.new ≡ overlay.old) }
{
    let zeros = Lanes::zeros(program.entries().ranges.len() as u32);
    let value = first_value(program, graph, v);
    overlay.put(0, v, zeros, value)?;
    Ok(())
}

/// Puts the first values of new vertices and of those whose attribute is another one.
pub fn begin<O: OldGraph, A: Adjacency>(
    alloc: Global,
    program: &Program,
    graph: &A,
    change: &Change,
    history: &History,
    overlay: &mut Overlay,
) -> Result<(), Memory>
    requires change { IsChangeOver program.now O.graph (A.plain graph.now) change.now }
    requires none { IsRefinedTo program.now O.graph (A.plain graph.now) history.now
        overlay.old 0 }
    ensures { OnOk result (IsRefinedTo program.now O.graph (A.plain graph.now) history.now
        overlay.new 1) }
{
    let begun = begun_vertices::<O, A>(alloc, program, graph, change)?;
    for &v in &begun {
        put_first::<O, A>(program, graph, history, overlay, v)?;
    }
    Ok(())
}
