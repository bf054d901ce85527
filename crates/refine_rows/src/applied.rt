// The vertices that are evaluated again at an iteration.
ghost use Rattle.std.specs.Prelude.{◌≡◌, ◌≤◌, IfOk};
ghost use Rattle.run_model.specs.Steps.{is_target, step};
ghost use Rattle.bolt_base.specs.Graph.{vertices};
ghost use Rattle.refine_rows.specs.Over.{IsChangeOver};
ghost use Rattle.refine_rows.specs.Picked.{vertices_where};
ghost use Rattle.refine_rows.specs.Progress.{again};
ghost use Rattle.refine_rows.specs.Seen.{changed_values};

use crate::lists::{attr_vertices, new_vertices};
use crate::merging::merge;
use crate::old_graph::OldGraph;
use adjacency::{Adjacency, Change};
use bolt_base::Memory;
use std::alloc::Global;
use vertex_expr::Program;

/// The vertices whose init is evaluated again, rising: those whose attribute is another one, and
/// new ones.
pub fn begun_vertices<O: OldGraph, A: Adjacency>(
    alloc: Global,
    program: &Program,
    graph: &A,
    change: &Change,
) -> Result<Vec<u32>, Memory>
    requires { IsChangeOver program.now O.graph (A.plain graph.now) change.now }
    ensures { IfOk result (λ vs. vs.items ≡ again program.now O.graph (A.plain graph.now) 0) }
{
    let attrs = attr_vertices(alloc, change)?;
    let new = new_vertices(alloc, change.old_vertices, graph.vertices())?;
    let begun = merge(alloc, &attrs, &new)?;
    Ok(begun)
}

/// The vertices whose apply is evaluated again at an iteration, rising, from its targets and those
/// whose value changed.
pub fn applied_vertices<O: OldGraph, A: Adjacency>(
    alloc: Global,
    program: &Program,
    graph: &A,
    change: &Change,
    i: u32,
    targets: &[u32],
    changed: &[u32],
) -> Result<Vec<u32>, Memory>
    requires change { IsChangeOver program.now O.graph (A.plain graph.now) change.now }
    requires some { 1 ≤ i }
    requires targets { targets.now ≡ vertices_where (vertices (A.plain graph.now))
        (is_target program.now (step program.now O.graph (A.plain graph.now) i)) }
    requires changed { changed.now ≡ changed_values program.now O.graph (A.plain graph.now) i }
    ensures { IfOk result (λ vs. vs.items ≡ again program.now O.graph (A.plain graph.now) i) }
{
    let begun = begun_vertices::<O, A>(alloc, program, graph, change)?;
    let moved = merge(alloc, targets, changed)?;
    let applied = merge(alloc, &moved, &begun)?;
    Ok(applied)
}
