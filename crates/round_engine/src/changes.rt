// What changes in an answer.
ghost use Rattle.std.specs.Prelude.{◌≡◌, ◌+◌, ◌<◌, ◌≤◌, ◌^◌, length, IfOk};
ghost use Rattle.run_model.specs.Logs.{answer_changes, differs};
ghost use Rattle.run_model.specs.Rows.{answer, row};
ghost use Rattle.refine_rows.specs.Over.{AreOver};
ghost use Rattle.refine_rows.specs.Progress.{IsRefinedTo};
ghost use Rattle.round_engine.specs.Parts.{renewed};

use adjacency::Adjacency;
use agg_history::{History, Overlay};
use bolt_base::{AnswerChange, ChangeList, Lanes, Memory};
use refine_rows::{OldGraph, changed_vertices, laid_value};
use std::alloc::Global;
use vertex_expr::Program;

// Whether a vertex is a new one, or has another value than before.
fn is_other(old: &[Lanes], new: &[Lanes], v: usize) -> bool
    requires { v < length new.now }
    ensures { result ≡ differs old.now new.now v }
{
    if old.len() <= v {
        return true;
    }
    !old[v].same(&new[v])
}

/// What changes from a list of values to another one: the vertices whose value differs and the new
/// ones, rising, with their new values.
pub fn changes_between(alloc: Global, old: &[Lanes], new: &[Lanes]) -> Result<ChangeList, Memory>
    requires few { length new.now < 2 ^ 32 }
    ensures { IfOk result (λ changes. changes ≡ answer_changes old.now new.now) }
{
    let mut changes = ChangeList::new(alloc);
    for v in 0..new.len() {
        if is_other(old, new, v) {
            changes.push(AnswerChange {
                vertex: v as u32,
                value: new[v],
            })?;
        }
    }
    Ok(changes)
}

// The vertices whose value at the cut is another one than it was, and the new ones, rising.
fn renewed_at_cut<O: OldGraph, A: Adjacency>(
    alloc: Global,
    program: &Program,
    graph: &A,
    history: &History,
    overlay: &Overlay,
) -> Result<Vec<u32>, Memory>
    requires over { AreOver program.now O.graph (A.plain graph.now) }
    requires refined { IsRefinedTo program.now O.graph (A.plain graph.now) history.now
        overlay.now (history.now.cut + 1) }
    requires low { history.now.cut ≤ program.now.rounds }
    ensures { IfOk result (λ vs. vs.items
        ≡ renewed (row program.now O.graph history.now.cut)
        (row program.now (A.plain graph.now) history.now.cut)) }
{
    let next = history.cut() + 1;
    let old = history.vertices();
    let count = graph.vertices();
    let mut vs = changed_vertices::<O, A>(alloc, program, graph, history, overlay, next)?;
    for v in old..count {
        vs.push(v)?;
    }
    Ok(vs)
}

/// What changes in the answer where it is the row at the cut, which is refined.
pub fn changes_at_cut<O: OldGraph, A: Adjacency>(
    alloc: Global,
    program: &Program,
    graph: &A,
    history: &History,
    overlay: &Overlay,
) -> Result<ChangeList, Memory>
    requires over { AreOver program.now O.graph (A.plain graph.now) }
    requires refined { IsRefinedTo program.now O.graph (A.plain graph.now) history.now
        overlay.now (history.now.cut + 1) }
    requires last { history.now.cut ≡ program.now.rounds }
    ensures { IfOk result (λ changes. changes
        ≡ answer_changes (answer program.now O.graph) (answer program.now (A.plain graph.now))) }
{
    let last = history.cut();
    let mut changes = ChangeList::new(alloc);
    let vs = renewed_at_cut::<O, A>(alloc, program, graph, history, overlay)?;
    for &v in &vs {
        let value = laid_value::<O, A>(program, graph, history, overlay, last, v);
        changes.push(AnswerChange { vertex: v, value })?;
    }
    Ok(changes)
}
