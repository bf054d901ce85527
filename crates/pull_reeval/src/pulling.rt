// What the targets of an iteration gather.
ghost use Rattle.std.specs.Prelude.{◌≡◌, ◌<◌, ◌≤◌, ◌+◌, ◌^◌, IfOk};
ghost use Rattle.run_model.specs.Steps.{step, targets};
ghost use Rattle.run_model.specs.Visits.{pull_visits};
ghost use Rattle.refine_rows.specs.Seen.{changed_values};
ghost use Rattle.pull_reeval.specs.Iterating.{CanIterate, aggs_of};

use adjacency::{Change, Metered};
use agg_history::{History, Overlay};
use bolt_base::{Lanes, Memory, Meter, TargetList};
use pull_targets::{pull_targets, targets_of};
use refine_rows::{LaidRow, OldGraph, changed_vertices, dirty_vertices};
use run_model::Contributions;
use std::alloc::Global;
use std::thread::Threads;
use vertex_expr::Program;

/// What an iteration pulls.
#[derive(Drop)]
pub struct Pulled {
    /// The old vertices whose value at the iteration before is another one than it was, rising.
    pub changed: Vec<u32>,
    /// The targets, rising.
    pub targets: TargetList,
    /// The aggregate of each target.
    pub aggs: Vec<Lanes>,
}

/// Finds the targets of an iteration, and evaluates their aggregates again over the edges into
/// them. It reads each edge out of a dirty vertex once, and each edge into a target once.
pub fn pull_again<O: OldGraph, R: Threads + Sync, A: Metered<M> + Sync, M: Meter + Send>(
    rt: &R,
    alloc: Global,
    program: &Program,
    graph: &A,
    change: &Change,
    history: &History,
    overlay: &Overlay,
    i: u32,
    workers: u32,
    meter: &mut M,
) -> Result<Pulled, Memory>
    requires ready { CanIterate program.now O.graph (A.plain graph.now) change.now history.now
        overlay.now i }
    requires some { 1 ≤ workers }
    requires held { workers ≤ M.held meter.old }
    requires visits { M.counted meter.old
        + pull_visits program.now (step program.now O.graph (A.plain graph.now) i) < 2 ^ 64 }
    ensures changed { IfOk result (λ pulled. pulled.changed.items
        ≡ changed_values program.now O.graph (A.plain graph.now) i) }
    ensures targets { IfOk result (λ pulled. pulled.targets
        ≡ targets program.now (step program.now O.graph (A.plain graph.now) i)) }
    ensures aggs { IfOk result (λ pulled. pulled.aggs.items
        ≡ aggs_of program.now (A.plain graph.now) i pulled.targets) }
    ensures exact { IfOk result (λ _. M.counted meter.new ≡ M.counted meter.old
        + pull_visits program.now (step program.now O.graph (A.plain graph.now) i)) }
    ensures most { M.counted meter.new ≤ M.counted meter.old
        + pull_visits program.now (step program.now O.graph (A.plain graph.now) i) }
    ensures held { M.held meter.new ≡ M.held meter.old }
{
    let changed = changed_vertices::<O, A>(alloc, program, graph, history, overlay, i)?;
    let dirty = dirty_vertices::<O, A>(alloc, program, graph, change, i, &changed)?;
    let (removed, added) = (change.removed.as_slice(), change.added.as_slice());
    let targets = targets_of(alloc, graph, removed, added, &dirty, meter)?;
    let row = LaidRow::new::<O, A>(program, graph, history, overlay, i - 1);
    let given = Contributions::ByEdge;
    let aggs = pull_targets(
        rt,
        alloc,
        program,
        graph,
        &row,
        &given,
        targets.as_slice(),
        workers,
        meter,
    )?;
    Ok(Pulled {
        changed,
        targets,
        aggs,
    })
}
