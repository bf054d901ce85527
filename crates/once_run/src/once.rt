// A program that is run once on a graph.
ghost use Rattle.std.specs.Prelude.{◌≡◌, ◌≤◌, ◌++◌, IfOk, OnOk, length};
ghost use Rattle.bolt_base.specs.Graph.{IsGood, edges, vertices};
ghost use Rattle.report_text.specs.Runs.{if_shown, once_text as once_text_of};
ghost use Rattle.report_text.specs.Values.{value_lines};
ghost use Rattle.run_model.specs.Rows.{answer as answer_of};
ghost use Rattle.run_model.specs.Visits.{opening_visits};

use adj_pages::PagedGraph;
use adjacency::Adjacency;
use bolt_base::{Answer, Bytes, GraphData, Lanes, Memory, VisitMeter};
use range_check::Accepted;
use report_text::{push_once, push_totals, push_values};
use std::alloc::Global;
use std::thread::Threads;
use sync_engine::full_run;
use vertex_steps::LaneRow;

// What running a program once gave.
#[derive(Drop)]
struct Found {
    vertices: u32,
    edges: u32,
    visits: u64,
    answer: Answer,
}

// Runs a program once on a graph.
fn find<R: Threads + Sync>(
    rt: &R,
    alloc: Global,
    accepted: &Accepted,
    plain: &GraphData,
    workers: u32,
) -> Result<Found, Memory>
    requires good { IsGood accepted.now.limits plain.now }
    requires some { 1 ≤ workers }
    requires few { workers ≤ 64 }
    ensures vertices { IfOk result (λ f. f.vertices ≡ vertices plain.now) }
    ensures edges { IfOk result (λ f. f.edges ≡ length (edges plain.now)) }
    ensures visits { IfOk result (λ f. f.visits ≡ opening_visits accepted.now plain.now) }
    ensures answer { IfOk result (λ f. f.answer ≡ answer_of accepted.now plain.now) }
{
    let limits = accepted.program().entries().limits;
    let graph = PagedGraph::new(alloc, plain, &limits)?;
    let vertices = graph.vertices();
    let edges = graph.edges();
    let mut meter = VisitMeter::new();
    let run = full_run(rt, alloc, accepted, &graph, 1, workers, &mut meter);
    let visits = meter.finish();
    Ok(Found {
        vertices,
        edges,
        visits,
        answer: run?.answer,
    })
}

// Appends the value of each vertex, where values are shown.
fn push_shown(out: &mut Bytes, answer: &[Lanes], vertices: u32, shows: bool) -> Result<(), Memory>
    requires { vertices ≡ length answer.now }
    ensures { OnOk result (out.new ≡ out.old ++ if_shown shows (value_lines answer.now)) }
{
    if !shows {
        return Ok(());
    }
    push_values(out, &LaneRow { lanes: answer }, vertices)?;
    Ok(())
}

/// What is written of a program that is run once on a graph.
pub fn once_text<R: Threads + Sync>(
    rt: &R,
    alloc: Global,
    accepted: &Accepted,
    plain: &GraphData,
    workers: u32,
    shows: bool,
) -> Result<Bytes, Memory>
    requires good { IsGood accepted.now.limits plain.now }
    requires some { 1 ≤ workers }
    requires few { workers ≤ 64 }
    ensures { IfOk result (λ text. text ≡ once_text_of accepted.now shows plain.now) }
{
    let found = find(rt, alloc, accepted, plain, workers)?;
    let vertices = found.vertices;
    let width = accepted.program().entries().ranges.len() as u32;
    let answer = found.answer.as_slice();
    let mut text = Bytes::new(alloc);
    push_once(&mut text, vertices, found.edges, found.visits)?;
    push_shown(&mut text, answer, vertices, shows)?;
    push_totals(&mut text, &LaneRow { lanes: answer }, vertices, width)?;
    Ok(text)
}
