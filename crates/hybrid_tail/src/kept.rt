// The rows that are kept up to the cut.
ghost use Rattle.std.specs.Prelude.{◌≡◌, ◌+◌, ◌<◌, ◌≤◌, ◌^◌, not, filter, length, IfOk};
ghost use Rattle.std.specs.Cmp.Lexicographic.{pointwise};
ghost use Rattle.std.specs.List.{range_with_len};
ghost use Rattle.std.specs.Ordering.{int_eq};
ghost use Rattle.bolt_base.specs.Graph.{vertices};
ghost use Rattle.run_model.specs.Rows.{aggr, at, row};
ghost use Rattle.hybrid_tail.specs.Keeping.{AreKept};
ghost use Rattle.hybrid_tail.specs.TailStep.{IsNext};

use crate::rows::TailRows;
use adjacency::Adjacency;
use agg_history::{History, Overlay};
use bolt_base::{Lanes, Memory};
use std::alloc::Global;
use vertex_expr::Program;

// The aggregate of a vertex at a kept iteration.
fn kept_agg<A: Adjacency>(
    program: &Program,
    graph: &A,
    history: &History,
    overlay: &Overlay,
    i: u32,
    v: u32,
) -> Lanes
    requires kept { AreKept program.now (A.plain graph.now) history.now overlay.now }
    requires iteration { i ≤ history.now.cut }
    requires vertex { v < vertices (A.plain graph.now) }
    ensures { result ≡ at (aggr program.now (A.plain graph.now) i) v }
{
    let lanes = program.entries().ranges.len() as u32;
    let mut agg = Lanes::zeros(lanes);
    for lane in 0..lanes {
        agg.set(lane, overlay.agg(history, i, v, lane));
    }
    agg
}

// The value of a vertex at a kept iteration.
fn kept_value<A: Adjacency>(
    program: &Program,
    graph: &A,
    history: &History,
    overlay: &Overlay,
    i: u32,
    v: u32,
) -> Lanes
    requires kept { AreKept program.now (A.plain graph.now) history.now overlay.now }
    requires iteration { i ≤ history.now.cut }
    requires vertex { v < vertices (A.plain graph.now) }
    ensures { result ≡ at (row program.now (A.plain graph.now) i) v }
{
    let lanes = program.entries().ranges.len() as u32;
    let mut value = Lanes::zeros(lanes);
    for lane in 0..lanes {
        value.set(lane, overlay.val(history, i, v, lane));
    }
    value
}

// The aggregates of a kept iteration.
fn kept_aggs<A: Adjacency>(
    alloc: Global,
    program: &Program,
    graph: &A,
    history: &History,
    overlay: &Overlay,
    i: u32,
) -> Result<Vec<Lanes>, Memory>
    requires kept { AreKept program.now (A.plain graph.now) history.now overlay.now }
    requires iteration { i ≤ history.now.cut }
    ensures { IfOk result (λ aggs. aggs.items ≡ aggr program.now (A.plain graph.now) i) }
{
    let vertices = graph.vertices();
    let mut aggs = Vec::with_capacity(alloc, vertices as usize)?;
    for v in 0..vertices {
        aggs.push(kept_agg(program, graph, history, overlay, i, v))?;
    }
    Ok(aggs)
}

/// The values of a kept iteration.
pub fn kept_values<A: Adjacency>(
    alloc: Global,
    program: &Program,
    graph: &A,
    history: &History,
    overlay: &Overlay,
    i: u32,
) -> Result<Vec<Lanes>, Memory>
    requires kept { AreKept program.now (A.plain graph.now) history.now overlay.now }
    requires iteration { i ≤ history.now.cut }
    ensures { IfOk result (λ vals. vals.items ≡ row program.now (A.plain graph.now) i) }
{
    let vertices = graph.vertices();
    let mut vals = Vec::with_capacity(alloc, vertices as usize)?;
    for v in 0..vertices {
        vals.push(kept_value(program, graph, history, overlay, i, v))?;
    }
    Ok(vals)
}

// The vertices whose value is another one than it was, rising.
fn moved_vertices(alloc: Global, last: &[Lanes], vals: &[Lanes]) -> Result<Vec<u32>, Memory>
    requires long { length last.now ≡ length vals.now }
    requires few { length vals.now < 2 ^ 32 }
    ensures { IfOk result (λ moved. moved.items
        ≡ filter (λ v. not (pointwise int_eq (at last.now v) (at vals.now v)))
        (range_with_len 0 (length vals.now))) }
{
    let mut moved = Vec::new(alloc);
    for v in 0..vals.len() as u32 {
        if !last[v as usize].same(&vals[v as usize]) {
            moved.push(v)?;
        }
    }
    Ok(moved)
}

/// The rows at the cut, from which the iteration past it is made.
pub fn rows_at_cut<A: Adjacency>(
    alloc: Global,
    program: &Program,
    graph: &A,
    history: &History,
    overlay: &Overlay,
) -> Result<TailRows, Memory>
    requires kept { AreKept program.now (A.plain graph.now) history.now overlay.now }
    ensures { IfOk result (λ rows.
        IsNext program.now (A.plain graph.now) (history.now.cut + 1) rows) }
{
    let cut = history.cut();
    // This shows that there are fewer than 2^32 vertices.
    let _vertices = graph.vertices();
    let aggs = kept_aggs(alloc, program, graph, history, overlay, cut)?;
    let vals = kept_values(alloc, program, graph, history, overlay, cut)?;
    let last = kept_values(alloc, program, graph, history, overlay, cut - 1)?;
    let moved = moved_vertices(alloc, &last, &vals)?;
    Ok(TailRows {
        aggs,
        vals,
        last,
        moved,
    })
}
