// The aggregates of vertices that are evaluated again.
ghost use Rattle.std.specs.Prelude.{◌≡◌, ◌<◌, ◌≤◌, ◌↔◌, length, slice_index_or, IfOk, IsTrue};
ghost use Rattle.bolt_base.specs.Graph.{vertices};
ghost use Rattle.run_model.specs.Steps.{is_target, step};
ghost use Rattle.refine_rows.specs.Over.{AreOver};
ghost use Rattle.refine_rows.specs.Picked.{vertices_where};
ghost use Rattle.refine_rows.specs.Progress.{StandsFor, again};
ghost use Rattle.pull_reeval.specs.Iterating.{aggs_of};

use adjacency::Adjacency;
use agg_history::History;
use bolt_base::{Lanes, Memory};
use refine_rows::{OldGraph, old_agg};
use std::alloc::Global;
use vertex_expr::Program;

// Whether a vertex stands at a place of a list.
#[inline]
fn is_at(vertices: &[u32], place: usize, v: u32) -> bool
    ensures { IsTrue result
        ↔ ((place < length vertices.now) × (slice_index_or vertices.now place 0 ≡ v)) }
{
    place < vertices.len() && vertices[place] == v
}

/// The aggregates of the vertices that are evaluated again at an iteration: a target has what it
/// pulled, and the others keep what they had.
pub fn aggregates_again<O: OldGraph, A: Adjacency>(
    alloc: Global,
    program: &Program,
    graph: &A,
    history: &History,
    i: u32,
    applied: &[u32],
    targets: &[u32],
    pulled: &[Lanes],
) -> Result<Vec<Lanes>, Memory>
    requires over { AreOver program.now O.graph (A.plain graph.now) }
    requires stands { StandsFor program.now O.graph history.now }
    requires some { 1 ≤ i }
    requires low { i ≤ history.now.cut }
    requires applied { applied.now ≡ again program.now O.graph (A.plain graph.now) i }
    requires targets { targets.now ≡ vertices_where (vertices (A.plain graph.now))
        (is_target program.now (step program.now O.graph (A.plain graph.now) i)) }
    requires pulled { pulled.now ≡ aggs_of program.now (A.plain graph.now) i targets.now }
    ensures { IfOk result (λ aggs. aggs.items
        ≡ aggs_of program.now (A.plain graph.now) i applied.now) }
{
    let mut aggs = Vec::with_capacity(alloc, applied.len())?;
    let mut place = 0;
    for &v in applied {
        if is_at(targets, place, v) {
            aggs.push(pulled[place])?;
            place += 1;
        } else {
            aggs.push(old_agg::<O>(program, history, i, v))?;
        }
    }
    Ok(aggs)
}
