// What the old rows have, and what was put over them.
ghost use Rattle.std.specs.Prelude.{◌≡◌, ◌<◌, ◌≤◌};
ghost use Rattle.bolt_base.specs.Graph.{vertices};
ghost use Rattle.range_check.specs.Breaks.{IsAccepted};
ghost use Rattle.run_model.specs.Refined.{IsRefined};
ghost use Rattle.run_model.specs.Rows.{at, row};
ghost use Rattle.agg_history.specs.Puts.{put_at};
ghost use Rattle.refine_rows.specs.Over.{AreOver};
ghost use Rattle.refine_rows.specs.Progress.{IsLaidOver, StandsFor};
ghost use Rattle.refine_rows.specs.Seen.{had_before};

use crate::old_graph::OldGraph;
use adjacency::Adjacency;
use agg_history::{History, Overlay};
use bolt_base::Lanes;
use run_model::empties;
use vertex_expr::Program;

/// The value of a vertex of the old graph at an iteration.
pub fn old_value<O: OldGraph>(program: &Program, history: &History, i: u32, v: u32) -> Lanes
    requires safe { IsAccepted program.now }
    requires stands { StandsFor program.now O.graph history.now }
    requires iteration { i ≤ history.now.cut }
    requires vertex { v < vertices O.graph }
    ensures { result ≡ at (row program.now O.graph i) v }
{
    let lanes = program.entries().ranges.len() as u32;
    let mut value = Lanes::zeros(lanes);
    for lane in 0..lanes {
        value.set(lane, history.val(i, v, lane));
    }
    value
}

/// The aggregate of a vertex in the old rows; a new vertex had none.
pub fn old_agg<O: OldGraph>(program: &Program, history: &History, i: u32, v: u32) -> Lanes
    requires safe { IsAccepted program.now }
    requires stands { StandsFor program.now O.graph history.now }
    requires iteration { i ≤ history.now.cut }
    ensures { result ≡ had_before program.now O.graph history.now.cut i v }
{
    if history.vertices() <= v {
        return empties(program);
    }
    let lanes = program.entries().ranges.len() as u32;
    let mut agg = Lanes::zeros(lanes);
    for lane in 0..lanes {
        agg.set(lane, history.agg(i, v, lane));
    }
    agg
}

/// The value of a vertex of the new graph at an iteration that is refined for it.
pub fn laid_value<O: OldGraph, A: Adjacency>(
    program: &Program,
    graph: &A,
    history: &History,
    overlay: &Overlay,
    i: u32,
    v: u32,
) -> Lanes
    requires over { AreOver program.now O.graph (A.plain graph.now) }
    requires laid { IsLaidOver program.now O.graph (A.plain graph.now) history.now overlay.now }
    requires iteration { i ≤ history.now.cut }
    requires vertex { v < vertices (A.plain graph.now) }
    requires refined { IsRefined program.now O.graph (A.plain graph.now)
        (put_at overlay.now.puts) i v }
    ensures { result ≡ at (row program.now (A.plain graph.now) i) v }
{
    let lanes = program.entries().ranges.len() as u32;
    let mut value = Lanes::zeros(lanes);
    for lane in 0..lanes {
        value.set(lane, overlay.val(history, i, v, lane));
    }
    value
}
