// What a vertex had before a change.
ghost use Rattle.std.specs.Prelude.{◌≡◌, ◌<◌, ◌≤◌, ◌+◌, ◌-◌, if◌then◌else◌};
ghost use Rattle.bolt_base.specs.Change.{attr_at};
ghost use Rattle.bolt_base.specs.Differs.{is_new};
ghost use Rattle.bolt_base.specs.Graph.{outdeg, vertices};
ghost use Rattle.run_model.specs.Rows.{at, row};
ghost use Rattle.adjacency.specs.ChangeOf.{IsChange};
ghost use Rattle.refine_rows.specs.Over.{AreOver};
ghost use Rattle.refine_rows.specs.Progress.{IsRefinedTo};

use crate::search::{attr_place, touched_near};
use adjacency::{Adjacency, Change};
use agg_history::{History, Overlay};
use bolt_base::Lanes;
use refine_rows::{OldGraph, laid_value, old_value};
use vertex_expr::Program;

/// The out-degree before. Sources of changed edges are looked up, first at `near`; others have the
/// same still.
pub(crate) fn old_degree<O: OldGraph, A: Adjacency>(
    graph: &A,
    change: &Change,
    near: usize,
    u: u32,
) -> u32
    requires net { IsChange O.graph (A.plain graph.now) change.now }
    requires vertex { u < vertices (A.plain graph.now) }
    ensures { result ≡ outdeg O.graph u }
{
    let touched = change.sources.as_slice();
    match touched_near(touched, near, u) {
        Ok(place) => touched[place].old_degree,
        Err(_) => graph.out_degree(u),
    }
}

/// The attribute before; that of a new vertex is the one that it has.
pub(crate) fn old_attr<O: OldGraph, A: Adjacency>(graph: &A, change: &Change, u: u32) -> i64
    requires net { IsChange O.graph (A.plain graph.now) change.now }
    requires vertex { u < vertices (A.plain graph.now) }
    ensures { result ≡ if is_new O.graph u then attr_at (A.plain graph.now) u
        else attr_at O.graph u }
{
    let attrs = change.attrs.as_slice();
    match attr_place(attrs, u) {
        Ok(place) => attrs[place].old,
        Err(_) => graph.attr(u),
    }
}

/// The value that a vertex had at the iteration before `i`; that of a new vertex is the one that it
/// has there.
pub(crate) fn value_before<O: OldGraph, A: Adjacency>(
    program: &Program,
    graph: &A,
    history: &History,
    overlay: &Overlay,
    i: u32,
    u: u32,
) -> Lanes
    requires over { AreOver program.now O.graph (A.plain graph.now) }
    requires refined { IsRefinedTo program.now O.graph (A.plain graph.now) history.now
        overlay.now i }
    requires some { 1 ≤ i }
    requires low { i ≤ history.now.cut + 1 }
    requires vertex { u < vertices (A.plain graph.now) }
    ensures { result ≡ if is_new O.graph u then at (row program.now (A.plain graph.now) (i - 1)) u
        else at (row program.now O.graph (i - 1)) u }
{
    if history.vertices() <= u {
        return laid_value::<O, A>(program, graph, history, overlay, i - 1, u);
    }
    old_value::<O>(program, history, i - 1, u)
}
