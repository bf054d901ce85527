// The vertices that are applied at an iteration, once its additions were made.
ghost use Rattle.std.specs.Prelude.{◌≡◌, ◌≤◌, ◌+◌, ◌++◌, [], OnOk};
ghost use Rattle.agg_words.specs.Known.{IsClear};
ghost use Rattle.vertex_expr.specs.declared.program.Combine.TheVariants.{Sum as SumIs};
ghost use Rattle.run_model.specs.Program.{lanes};
ghost use Rattle.run_model.specs.Steps.{step};
ghost use Rattle.sum_steps.specs.Laws.{IsSpread};
ghost use Rattle.sum_steps.specs.Taken.{takes};
ghost use Rattle.refine_rows.specs.Over.{IsChangeOver};
ghost use Rattle.refine_rows.specs.Progress.{IsRefinedTo};
ghost use Rattle.refine_rows.specs.Seen.{changed_values};
ghost use Rattle.refine_tasks.specs.Taking.{AreTakenTo};
ghost use Rattle.retract_propagate.specs.Refinement.{AreStillLeft};

use adjacency::{Adjacency, Change};
use agg_history::{History, Overlay};
use agg_words::{AggSeat, AggWords};
use bolt_base::Memory;
use refine_rows::{OldGraph, applied_vertices, old_agg, put_entry};
use refine_tasks::next_aggregate;
use std::alloc::Global;
use sum_steps::{clear_targets, wipe_marks};
use vertex_expr::Program;

// Puts the entries that are evaluated again at an iteration, and takes the words of its targets on
// the way. `next` is the place of the first target that isn't taken.
fn put_again<O: OldGraph, A: Adjacency>(
    alloc: Global,
    program: &Program,
    graph: &A,
    change: &Change,
    history: &History,
    overlay: &mut Overlay,
    words: &AggWords,
    seat: &mut AggSeat,
    i: u32,
    targets: &[u32],
    changed: &[u32],
    next: &mut usize,
) -> Result<(), Memory>
    requires change { IsChangeOver program.now O.graph (A.plain graph.now) change.now }
    requires refined { IsRefinedTo program.now O.graph (A.plain graph.now) history.now
        overlay.old i }
    requires iteration { (1 ≤ i) × (i ≤ history.now.cut) }
    requires sum { program.now.combine ≡ SumIs }
    requires changed { changed.now ≡ changed_values program.now O.graph (A.plain graph.now) i }
    requires table { seat.old.table ≡ words.now.table }
    requires spread { IsSpread program.now (step program.now O.graph (A.plain graph.now) i)
        words.now.layout targets.now seat.old.view }
    requires first { next.old ≡ 0 }
    ensures refined { OnOk result (IsRefinedTo program.now O.graph (A.plain graph.now)
        history.now overlay.new (i + 1)) }
    ensures taken { OnOk result (AreTakenTo program.now
        (step program.now O.graph (A.plain graph.now) i) words.now.layout targets.now
        seat.old.view.amounts next.new [] seat.new.view) }
    ensures left { AreStillLeft program.now (step program.now O.graph (A.plain graph.now) i)
        words.now.layout targets.now next.new seat.new.view }
    ensures table { seat.new.table ≡ seat.old.table }
{
    let again = applied_vertices::<O, A>(alloc, program, graph, change, i, targets, changed)?;
    for &v in &again {
        let old = old_agg::<O>(program, history, i, v);
        let agg = next_aggregate(program, words, seat, targets, next, &old, v);
        put_entry::<O, A>(program, graph, history, overlay, i, v, &agg)?;
    }
    Ok(())
}

/// Takes what the additions of an iteration left in the words, and puts the entries that are
/// evaluated again. The words are clear after either answer.
pub(crate) fn apply_targets<O: OldGraph, A: Adjacency>(
    alloc: Global,
    program: &Program,
    graph: &A,
    change: &Change,
    history: &History,
    overlay: &mut Overlay,
    words: &AggWords,
    seat: &mut AggSeat,
    i: u32,
    targets: &[u32],
    changed: &[u32],
) -> Result<(), Memory>
    requires change { IsChangeOver program.now O.graph (A.plain graph.now) change.now }
    requires refined { IsRefinedTo program.now O.graph (A.plain graph.now) history.now
        overlay.old i }
    requires iteration { (1 ≤ i) × (i ≤ history.now.cut) }
    requires sum { program.now.combine ≡ SumIs }
    requires lanes { (1 ≤ lanes program.now) × (lanes program.now ≤ 8) }
    requires changed { changed.now ≡ changed_values program.now O.graph (A.plain graph.now) i }
    requires table { seat.old.table ≡ words.now.table }
    requires spread { IsSpread program.now (step program.now O.graph (A.plain graph.now) i)
        words.now.layout targets.now seat.old.view }
    ensures refined { OnOk result (IsRefinedTo program.now O.graph (A.plain graph.now)
        history.now overlay.new (i + 1)) }
    ensures amounts { OnOk result (seat.new.view.amounts ≡ seat.old.view.amounts
        ++ takes program.now (step program.now O.graph (A.plain graph.now) i)) }
    ensures table { seat.new.table ≡ seat.old.table }
    ensures clear { IsClear words.now.layout seat.new.view }
{
    let mut next = 0;
    if let Err(refusal) = put_again::<O, A>(
        alloc, program, graph, change, history, overlay, words, seat, i, targets, changed,
        &mut next,
    ) {
        clear_targets(program, words, seat, targets, next);
        return Err(refusal);
    }
    wipe_marks(words, seat, targets);
    Ok(())
}
