// The answer past the cut, by one worker and by two.
ghost use Rattle.std.specs.Prelude.{◌≡◌, ◌≤◌, IfOk};
ghost use Rattle.bolt_base.specs.Graph.{IsGood, vertices};
ghost use Rattle.run_model.specs.Program.{lanes};
ghost use Rattle.vertex_expr.specs.Writable.{IsCombination};
ghost use Rattle.refine_rows.specs.Progress.{StandsFor};
ghost use Rattle.refine_rows.specs.Refining.{IsRefinedBy};

use crate::graphs::{add, graph_of, vertex};
use crate::program::program_of;
use adjacency::{Adjacency, Graph};
use agg_history::{History, Overlay};
use agg_words::AggWords;
use bolt_base::{Answer, OpenGate, VisitMeter};
use hybrid_tail::finish;
use range_check::{Accepted, check};
use std::alloc::Global;
use std::process::Abort;
use std::test::Fail;
use std::thread::Threads;
use sync_engine::{FirstRun, full_run};
use vertex_expr::Combine;

// The history of a run that is cut.
fn history_at<R: Threads + Sync>(
    rt: &R,
    alloc: Global,
    accepted: &Accepted,
    graph: &Graph,
    cut: u32,
) -> Result<History, Fail>
    requires good { IsGood accepted.now.limits graph.now.now }
    requires some { 1 ≤ cut }
    requires low { cut ≤ accepted.now.rounds }
    ensures cut { IfOk result (λ history. history.cut ≡ cut) }
    ensures stands { IfOk result (λ history. StandsFor accepted.now graph.now.now history) }
{
    let _program = accepted.program();
    let mut meter = VisitMeter::new();
    let run = full_run(rt, alloc, accepted, graph, cut, 1, &mut meter);
    meter.finish();
    let FirstRun { rows, answer: _ } = run?;
    let history = History::from_rows(alloc, rows, cut, true)?;
    Ok(history)
}

// An overlay without entries.
fn nothing_put(
    alloc: Global,
    accepted: &Accepted,
    graph: &Graph,
    history: &History,
) -> Result<Overlay, Fail>
    requires lanes { lanes accepted.now ≡ 1 }
    requires short { history.now.cut ≤ 64 }
    requires stands { StandsFor accepted.now graph.now.now history.now }
    ensures { IfOk result (λ overlay.
        IsRefinedBy accepted.now graph.now.now history.now overlay) }
{
    let vertices = graph.vertices();
    let overlay = Overlay::new(alloc, vertices, vertices, 1, history.cut())?;
    Ok(overlay)
}

// The answer from a history, and how many edges were read.
fn answer_past<R: Threads + Sync>(
    rt: &R,
    alloc: Global,
    accepted: &Accepted,
    graph: &Graph,
    cut: u32,
    workers: u32,
) -> Result<(Answer, u64), Fail>
    requires good { IsGood accepted.now.limits graph.now.now }
    requires lanes { lanes accepted.now ≡ 1 }
    requires some { 1 ≤ cut }
    requires low { cut ≤ accepted.now.rounds }
    requires worker { 1 ≤ workers }
    requires few { workers ≤ 2 }
{
    let _program = accepted.program();
    let history = history_at(rt, alloc, accepted, graph, cut)?;
    let overlay = nothing_put(alloc, accepted, graph, &history)?;
    let vertices = graph.vertices();
    let (words, mut seat) = AggWords::new(alloc, vertices, vertices, 2)?;
    let mut meter = VisitMeter::new();
    let answer = finish(
        rt, alloc, accepted, graph, &history, &overlay, &words, &mut seat, workers, &OpenGate,
        &mut meter,
    );
    let visits = meter.finish();
    Ok((answer?, visits))
}

// Compares the answer of a program on the edges 0 1, 1 2, 2 0 and 0 2, and how many edges were
// read past the cut.
fn compare_tail<R: Abort + Threads + Sync>(
    rt: &R,
    alloc: Global,
    combine: Combine,
    cut: u32,
    workers: u32,
    last: &[i64],
    read: u64,
) -> Result<(), Fail>
    requires combination { IsCombination combine }
    requires some { 1 ≤ cut }
    requires low { cut ≤ 10 }
    requires worker { 1 ≤ workers }
    requires few { workers ≤ 2 }
{
    let edits = [
        vertex(0),
        vertex(1),
        vertex(2),
        add(0, 1),
        add(1, 2),
        add(2, 0),
        add(0, 2),
    ];
    let accepted = check(alloc, program_of(alloc, combine)?)?;
    let graph = graph_of(alloc, &accepted, &edits)?;
    let (answer, visits) = answer_past(rt, alloc, &accepted, &graph, cut, workers)?;
    assert_eq!(rt; visits, read);
    let mut numbers = Vec::new(alloc);
    for value in answer.as_slice() {
        numbers.extend_from_slice(value.as_slice())?;
    }
    assert_eq!(rt; numbers.as_slice(), last);
    Ok(())
}

#[test]
fn sums_go_on_past_the_cut(rt: HostRuntime) -> Result<(), Fail> {
    let alloc = rt.alloc();
    let last = [1_166_736, 643_248, 1_190_009];
    compare_tail(&rt, alloc, Combine::Sum, 2, 1, &last, 25)?;
    compare_tail(&rt, alloc, Combine::Sum, 5, 2, &last, 14)?;
    compare_tail(&rt, alloc, Combine::Sum, 10, 1, &last, 0)
}

#[test]
fn minima_go_on_past_the_cut(rt: HostRuntime) -> Result<(), Fail> {
    let least = Combine::Min {
        empty: 1_000_000_000,
    };
    let last = [437_920, 338_730, 338_730];
    compare_tail(&rt, rt.alloc(), least, 2, 2, &last, 40)
}
