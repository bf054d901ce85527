// Entries that are evaluated again.
ghost use Rattle.std.specs.Prelude.{◌≡◌, ◌≤◌, length, slice_get, Some, [], OnOk, OnErr};
ghost use Rattle.std.specs.Prelude.{◌++◌, ◌∷◌};
ghost use Rattle.refine_rows.specs.Over.{AreOver};
ghost use Rattle.refine_rows.specs.Progress.{again, vertices_put, IsRefinedWithin};
ghost use Rattle.refine_rows.specs.Seen.{agg_now};

use crate::old_graph::OldGraph;
use crate::values::laid_value;
use adjacency::Adjacency;
use agg_history::{History, Overlay};
use bolt_base::{Lanes, Memory};
use vertex_expr::Program;
use vertex_steps::next_value;

/// Puts the entry of the next vertex whose apply is evaluated again at an iteration, from its new
/// aggregate. Nothing changes after `Memory`.
pub fn put_entry<O: OldGraph, A: Adjacency>(
    program: &Program,
    graph: &A,
    history: &History,
    overlay: &mut Overlay,
    i: u32,
    v: u32,
    agg: &Lanes,
) -> Result<(), Memory>
    requires over { AreOver program.now O.graph (A.plain graph.now) }
    requires within { IsRefinedWithin program.now O.graph (A.plain graph.now) history.now
        overlay.old i }
    requires some { 1 ≤ i }
    requires low { i ≤ history.now.cut }
    requires next { slice_get (again program.now O.graph (A.plain graph.now) i)
        (length (vertices_put overlay.old i)) ≡ Some v }
    requires agg { agg.now ≡ agg_now program.now O.graph (A.plain graph.now) history.now.cut i v }
    ensures within { OnOk result (IsRefinedWithin program.now O.graph (A.plain graph.now)
        history.now overlay.new i) }
    ensures put { OnOk result (vertices_put overlay.new i
        ≡ vertices_put overlay.old i ++ v ∷ []) }
    ensures err { OnErr result (overlay.new ≡ overlay.old) }
{
    let before = laid_value::<O, A>(program, graph, history, overlay, i - 1, v);
    let value = next_value(program, graph, agg, &before, v);
    overlay.put(i, v, *agg, value)?;
    Ok(())
}
