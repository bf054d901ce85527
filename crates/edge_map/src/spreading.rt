// The additions of tasks, by several workers.
ghost use Rattle.std.specs.Prelude.{◌≡◌, ◌+◌, ◌^◌, ◌<◌, ◌≤◌, ◌++◌, length, IfOk, OnOk};
ghost use Rattle.std.specs.Prelude.{OnErr};
ghost use Rattle.bolt_base.specs.Graph.{IsGood};
ghost use Rattle.range_check.specs.Breaks.{IsAccepted};
ghost use Rattle.edge_map.specs.Additions.{works, task_adds, task_gifts, task_visits};
ghost use Rattle.edge_map.specs.Additions.{ends_of_gifts};
ghost use Rattle.edge_map.specs.Agrees.{AgreesWith};
ghost use Rattle.edge_map.specs.Plans.{AreFit, IsReady};
ghost use Rattle.edge_map.specs.Ready.{WordsReady};
ghost use Rattle.edge_map.specs.Targets.{AreTargets};

use crate::contributions::reads_weight;
use crate::fork::run_pieces;
use crate::piece::room_of;
use crate::prepare::{sides_of, works_of};
use crate::tasks::{Plan, Tasks};
use adjacency::Metered;
use agg_words::{AggSeat, AggWords};
use bolt_base::{Gate, Items, Memory, Meter, TargetList};
use range_check::Accepted;
use std::alloc::Global;
use std::thread::Threads;
use vertex_expr::Program;

// What is ready before the first addition.
fn plan_of<'a>(
    alloc: Global,
    program: &'a Program,
    tasks: &'a Tasks,
    workers: u32,
) -> Result<Plan<'a>, Memory>
    requires safe { IsAccepted program.now }
    requires fit { AreFit program.now tasks.now }
    requires few { length tasks.now.sources < 2 ^ 32 }
    ensures ready { IfOk result (λ x. IsReady x) }
    ensures all { IfOk result (λ x. x.works.items ≡ works tasks.now) }
    ensures program { IfOk result (λ x. x.program.now ≡ program.now) }
    ensures tasks { IfOk result (λ x. x.tasks.now ≡ tasks.now) }
    ensures workers { IfOk result (λ x. x.workers ≡ workers) }
{
    let by_edge = reads_weight(program);
    let sides = sides_of(alloc, program, tasks, by_edge)?;
    let works = works_of(alloc, tasks)?;
    Ok(Plan {
        program,
        tasks,
        works,
        sides,
        by_edge,
        workers,
    })
}

/// Makes the additions of the tasks, in one piece for each worker, each in a thread of its own
/// where one can be had. With one
/// worker no thread is started. It answers the vertices that were added to, rising. All memory is
/// taken before the first
/// addition, so that after `Memory` nothing was added.
pub fn spread<R: Threads + Sync, A: Metered<M> + Sync, T: Gate + Sync, M: Meter + Send>(
    rt: &R,
    alloc: Global,
    graph: &A,
    accepted: &Accepted,
    tasks: &Tasks,
    words: &AggWords,
    seat: &mut AggSeat,
    workers: u32,
    gate: &T,
    meter: &mut M,
) -> Result<TargetList, Memory>
    requires good { IsGood accepted.now.limits (A.plain graph.now) }
    requires agrees { AgreesWith accepted.now (A.plain graph.now) tasks.now }
    requires table { seat.old.table ≡ words.now.table }
    requires ready { WordsReady accepted.now (A.plain graph.now) workers words.now.layout
        seat.old.view }
    requires held { 64 ≤ M.held meter.old }
    requires visits { M.counted meter.old + task_visits tasks.now < 2 ^ 64 }
    ensures table { seat.new.table ≡ seat.old.table }
    ensures units { seat.new.view.units ≡ seat.old.view.units }
    ensures held { M.held meter.new ≡ M.held meter.old }
    ensures visits { OnOk result (M.counted meter.new
        ≡ M.counted meter.old + task_visits tasks.now) }
    ensures amounts { OnOk result (seat.new.view.amounts ≡ seat.old.view.amounts
        ++ task_adds accepted.now (A.plain graph.now) tasks.now) }
    ensures targets { IfOk result (λ targets. AreTargets
        (ends_of_gifts (task_gifts accepted.now (A.plain graph.now) tasks.now)) targets
        seat.new.view) }
    ensures memory { OnErr result ((seat.new ≡ seat.old)
        × (M.counted meter.new ≡ M.counted meter.old)) }
{
    let plan = plan_of(alloc, accepted.program(), tasks, workers)?;
    let room = room_of(graph, &plan, 0, workers);
    let mut targets = vec![in alloc; 0u32; room]?;
    let _units = meter.units();
    let count = run_pieces(
        rt,
        graph,
        &plan,
        words,
        gate,
        0,
        workers,
        seat,
        meter,
        targets.as_mut_slice(),
    );
    words.know(seat);
    targets.truncate(count);
    targets.sort_unstable();
    Ok(Items::from_vec(targets))
}
