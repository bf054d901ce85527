// Entries that were evaluated again are put.
ghost use Rattle.std.specs.Prelude.{◌≡◌, ◌+◌, ◌≤◌, ◌++◌, ◌∷◌, [], length, slice_get, Some, OnOk};
ghost use Rattle.run_model.specs.Rows.{aggr, at, row};
ghost use Rattle.refine_rows.specs.Progress.{IsRefinedTo, IsRefinedWithin, again, vertices_put};
ghost use Rattle.pull_reeval.specs.Iterating.{aggs_of, vals_of};

use adjacency::Adjacency;
use agg_history::{History, Overlay};
use bolt_base::{Lanes, Memory};
use refine_rows::OldGraph;
use vertex_expr::Program;

// Puts the entry of the next vertex whose apply is evaluated again at an iteration.
fn put_next<O: OldGraph, A: Adjacency>(
    program: &Program,
    graph: &A,
    history: &History,
    overlay: &mut Overlay,
    i: u32,
    v: u32,
    agg: Lanes,
    val: Lanes,
) -> Result<(), Memory>
    requires within { IsRefinedWithin program.now O.graph (A.plain graph.now) history.now
        overlay.old i }
    requires low { i ≤ history.now.cut }
    requires next { slice_get (again program.now O.graph (A.plain graph.now) i)
        (length (vertices_put overlay.old i)) ≡ Some v }
    requires agg { agg ≡ at (aggr program.now (A.plain graph.now) i) v }
    requires val { val ≡ at (row program.now (A.plain graph.now) i) v }
    ensures within { OnOk result (IsRefinedWithin program.now O.graph (A.plain graph.now)
        history.now overlay.new i) }
    ensures put { OnOk result (vertices_put overlay.new i
        ≡ vertices_put overlay.old i ++ v ∷ []) }
{
    overlay.put(i, v, agg, val)?;
    Ok(())
}

/// Puts the entries of all vertices whose apply is evaluated again at an iteration.
pub fn put_all<O: OldGraph, A: Adjacency>(
    program: &Program,
    graph: &A,
    history: &History,
    overlay: &mut Overlay,
    i: u32,
    applied: &[u32],
    aggs: &[Lanes],
    vals: &[Lanes],
) -> Result<(), Memory>
    requires refined { IsRefinedTo program.now O.graph (A.plain graph.now) history.now
        overlay.old i }
    requires low { i ≤ history.now.cut }
    requires applied { applied.now ≡ again program.now O.graph (A.plain graph.now) i }
    requires aggs { aggs.now ≡ aggs_of program.now (A.plain graph.now) i applied.now }
    requires vals { vals.now ≡ vals_of program.now (A.plain graph.now) i applied.now }
    ensures { OnOk result (IsRefinedTo program.now O.graph (A.plain graph.now) history.now
        overlay.new (i + 1)) }
{
    for k in 0..applied.len() {
        put_next::<O, A>(
            program, graph, history, overlay, i, applied[k], aggs[k], vals[k],
        )?;
    }
    Ok(())
}
