// Runs on a small graph, by one worker and by two.
ghost use Rattle.std.specs.Prelude.{◌≤◌, length, IfOk};
ghost use Rattle.bolt_base.specs.Graph.{IsGood};

use crate::rank::rank_program;
use adjacency::{EditRefusal, Graph};
use bolt_base::{AttrList, Edge, EdgeList, Edit, GraphData, Memory, Rows, VisitMeter};
use range_check::{Accepted, check};
use std::alloc::Global;
use std::process::Abort;
use std::test::Fail;
use std::thread::Threads;
use sync_engine::{FirstRun, full_run};

fn add(src: u32, dst: u32) -> Edit {
    Edit::Add(Edge {
        src,
        dst,
        weight: 1,
    })
}

fn vertex(vertex: u32) -> Edit {
    Edit::Attr { vertex, attr: 0 }
}

/// The edges 0 1, 1 2, 2 0 and 0 2, and their vertices.
pub fn edits() -> [Edit; 7] {
    [
        vertex(0),
        vertex(1),
        vertex(2),
        add(0, 1),
        add(1, 2),
        add(2, 0),
        add(0, 2),
    ]
}

/// The graph that edits make of nothing.
pub fn graph_of(alloc: Global, accepted: &Accepted, edits: &[Edit]) -> Result<Graph, EditRefusal>
    requires few { length edits.now ≤ 1000000 }
    ensures good { IfOk result (λ graph. IsGood accepted.now.limits graph.now) }
{
    let limits = accepted.program().entries().limits;
    let plain = GraphData::new(AttrList::new(alloc), EdgeList::new(alloc));
    let mut graph = Graph::new(alloc, &plain, &limits)?;
    let change = graph.apply(alloc, edits)?;
    graph.keep(change);
    let _limits = graph.limits();
    Ok(graph)
}

// A run along these edges, cut at iteration 2, and how many edges it read.
fn run_of<R: Threads + Sync>(rt: &R, alloc: Global, workers: u32) -> Result<(FirstRun, u64), Fail>
    requires some { 1 ≤ workers }
    requires few { workers ≤ 64 }
{
    let accepted = check(alloc, rank_program(alloc)?)?;
    let graph = graph_of(alloc, &accepted, &edits())?;
    let mut meter = VisitMeter::new();
    let run = full_run(rt, alloc, &accepted, &graph, 2, workers, &mut meter);
    let visits = meter.finish();
    Ok((run?, visits))
}

// The aggregates and the values of the last row of three vertices.
fn entries_of(rt: &impl Abort, alloc: Global, rows: &Rows) -> Result<Vec<(i64, i64)>, Memory> {
    let mut entries = Vec::new(alloc);
    for v in 0..3 {
        assert!(rt; rows.len() == 3 && v < rows.vertices() && 0 < rows.lanes());
        entries.push((rows.agg(2, v, 0), rows.val(2, v, 0)))?;
    }
    Ok(entries)
}

#[test]
fn ranks_by_one_worker_and_by_two(rt: HostRuntime) -> Result<(), Fail> {
    let alloc = rt.alloc();
    let entries = [
        (1_425_000, 1_361_250),
        (500_000, 575_000),
        (1_075_000, 1_063_750),
    ];
    for workers in 1..3 {
        let (FirstRun { rows, answer }, visits) = run_of(&rt, alloc, workers)?;
        assert!(rt; visits == 40);
        assert!(rt; entries_of(&rt, alloc, &rows)?.as_slice() == entries.as_slice());
        let mut numbers = Vec::new(alloc);
        for value in answer.as_slice() {
            numbers.extend_from_slice(value.as_slice())?;
        }
        assert!(rt; numbers.as_slice() == [1_166_736, 643_248, 1_190_009].as_slice());
    }
    Ok(())
}
