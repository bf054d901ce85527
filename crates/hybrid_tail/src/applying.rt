// The values of an iteration past the cut, from its aggregates.
ghost use Rattle.std.specs.Prelude.{◌≡◌, ◌+◌, ◌-◌, ◌<◌, not, filter, length, All, OnOk, IfOk};
ghost use Rattle.std.specs.Cmp.Lexicographic.{pointwise};
ghost use Rattle.std.specs.Ordering.{int_eq};
ghost use Rattle.bolt_base.specs.Graph.{vertices};
ghost use Rattle.run_model.specs.Rows.{aggr, applied, at, row};
ghost use Rattle.run_model.specs.Steps.{tail_targets};
ghost use Rattle.hybrid_tail.specs.Setting.{with_each};
ghost use Rattle.hybrid_tail.specs.TailStep.{CanGoOn, IsGathered, IsNext};

use crate::rows::TailRows;
use adjacency::Adjacency;
use bolt_base::{Lanes, Memory};
use refine_rows::merge;
use std::alloc::Global;
use vertex_expr::Program;
use vertex_steps::next_value;

// Copies the values of some vertices.
fn copy_values(vals: &[Lanes], last: &mut [Lanes], chosen: &[u32])
    requires long { length last.old ≡ length vals.now }
    requires below { All (λ v. v < length vals.now) chosen.now }
    ensures { last.new ≡ with_each (at vals.now) chosen.now last.old }
{
    for place in 0..chosen.len() {
        let v = chosen[place] as usize;
        last[v] = vals[v];
    }
}

// Makes the next values of some vertices, from their aggregates and the values before.
fn apply_each<A: Adjacency>(
    program: &Program,
    graph: &A,
    i: u32,
    aggs: &[Lanes],
    last: &[Lanes],
    vals: &mut [Lanes],
    chosen: &[u32],
)
    requires go_on { CanGoOn program.now (A.plain graph.now) i }
    requires aggs { aggs.now ≡ aggr program.now (A.plain graph.now) i }
    requires last { last.now ≡ row program.now (A.plain graph.now) (i - 1) }
    requires long { length vals.old ≡ vertices (A.plain graph.now) }
    requires below { All (λ v. v < vertices (A.plain graph.now)) chosen.now }
    ensures { vals.new ≡ with_each
        (λ v. applied program.now (A.plain graph.now) (at aggs.now v) (at last.now v) v)
        chosen.now vals.old }
{
    for place in 0..chosen.len() {
        let v = chosen[place];
        let k = v as usize;
        vals[k] = next_value(program, graph, &aggs[k], &last[k], v);
    }
}

// Those of some vertices whose value is another one than it was, in their order.
fn moved_among(
    alloc: Global,
    last: &[Lanes],
    vals: &[Lanes],
    chosen: &[u32],
) -> Result<Vec<u32>, Memory>
    requires long { length last.now ≡ length vals.now }
    requires below { All (λ v. v < length vals.now) chosen.now }
    ensures { IfOk result (λ moved. moved.items
        ≡ filter (λ v. not (pointwise int_eq (at last.now v) (at vals.now v))) chosen.now) }
{
    let mut moved = Vec::new(alloc);
    for &v in chosen {
        if !last[v as usize].same(&vals[v as usize]) {
            moved.push(v)?;
        }
    }
    Ok(moved)
}

/// Makes the values of an iteration whose aggregates are there: just the targets and the vertices
/// whose value changed at the iteration before are evaluated again. The rows are of no further use
/// after `Memory`.
pub fn apply_again<A: Adjacency>(
    alloc: Global,
    program: &Program,
    graph: &A,
    i: u32,
    rows: &mut TailRows,
    targets: &[u32],
) -> Result<(), Memory>
    requires go_on { CanGoOn program.now (A.plain graph.now) i }
    requires rows { IsGathered program.now (A.plain graph.now) i rows.old }
    requires targets { targets.now ≡ tail_targets program.now (A.plain graph.now) i }
    ensures { OnOk result (IsNext program.now (A.plain graph.now) (i + 1) rows.new) }
{
    let again = merge(alloc, targets, &rows.moved)?;
    copy_values(&rows.vals, rows.last.as_mut_slice(), &rows.moved);
    apply_each(
        program,
        graph,
        i,
        &rows.aggs,
        &rows.last,
        rows.vals.as_mut_slice(),
        &again,
    );
    rows.moved = moved_among(alloc, &rows.last, &rows.vals, &again)?;
    Ok(())
}
