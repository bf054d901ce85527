// The tasks of an iteration.
ghost use Rattle.std.specs.Prelude.{◌≡◌, ◌≤◌, ◌+◌, map, IfOk};
ghost use Rattle.run_model.specs.Steps.{step};
ghost use Rattle.edge_map.specs.TaskLaws.{AreTasksOf};
ghost use Rattle.refine_rows.specs.Over.{IsChangeOver};
ghost use Rattle.refine_rows.specs.Progress.{IsRefinedTo};
ghost use Rattle.refine_rows.specs.Seen.{changed_values};

use crate::placing::placed;
use crate::sources::sources_of;
use adjacency::{Adjacency, Change};
use agg_history::{History, Overlay};
use bolt_base::{Memory, Touched};
use edge_map::Tasks;
use refine_rows::{OldGraph, dirty_vertices, merge};
use std::alloc::Global;
use vertex_expr::Program;

// The sources of changed edges.
fn touched_vertices(alloc: Global, touched: &[Touched]) -> Result<Vec<u32>, Memory>
    ensures { IfOk result (λ us. us.items ≡ map (λ t. t.vertex) touched.now) }
{
    let mut us = Vec::with_capacity(alloc, touched.len())?;
    for source in touched {
        us.push(source.vertex)?;
    }
    Ok(us)
}

/// The tasks of an iteration of a refinement, from the vertices whose value changed at the
/// iteration before: the changed edges, and the edges out of dirty vertices that stayed. All
/// iterations before it must be refined.
pub fn tasks_of<O: OldGraph, A: Adjacency>(
    alloc: Global,
    program: &Program,
    graph: &A,
    change: &Change,
    history: &History,
    overlay: &Overlay,
    i: u32,
    changed: &[u32],
) -> Result<Tasks, Memory>
    requires change { IsChangeOver program.now O.graph (A.plain graph.now) change.now }
    requires refined { IsRefinedTo program.now O.graph (A.plain graph.now) history.now
        overlay.now i }
    requires some { 1 ≤ i }
    requires low { i ≤ history.now.cut + 1 }
    requires changed { changed.now ≡ changed_values program.now O.graph (A.plain graph.now) i }
    ensures { IfOk result (λ tasks. AreTasksOf program.now
        (step program.now O.graph (A.plain graph.now) i) tasks) }
{
    let _count = graph.vertices();
    let again = dirty_vertices::<O, A>(alloc, program, graph, change, i, changed)?;
    let touched = touched_vertices(alloc, change.sources.as_slice())?;
    let us = merge(alloc, &touched, &again)?;
    let sources = sources_of::<O, A>(
        alloc, program, graph, change, history, overlay, i, &again, &us,
    )?;
    let removed = placed(alloc, &us, change.removed.as_slice())?;
    let added = placed(alloc, &us, change.added.as_slice())?;
    Ok(Tasks {
        sources,
        removed,
        added,
    })
}
