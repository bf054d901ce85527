// What the edges give in an iteration.
ghost use Rattle.std.specs.Prelude.{◌≡◌, ◌<◌, ◌↔◌, length, IfOk, IsTrue};
ghost use Rattle.bolt_base.specs.Graph.{vertices};
ghost use Rattle.range_check.specs.Breaks.{IsAccepted};
ghost use Rattle.run_model.specs.Evaluable.{AreEvaluable};
ghost use Rattle.run_model.specs.Given.{AreGiven, IsBefore, IsEdge, IsWeightless};
ghost use Rattle.run_model.specs.Given.{edge_gives, source_gives};
ghost use Rattle.run_model.specs.Rows.{contribute_env, each_vertex, out_degrees};

use crate::numbers::evaluated;
use bolt_base::{Edge, GraphData, Lanes, Memory};
use std::alloc::Global;
use vertex_expr::{Env, Program, mentions_weight};

/// The contributions after a row of values: one for all edges out of a vertex, where weights don't
/// matter, or one for each edge.
#[derive(Drop)]
pub enum Contributions {
    /// By source.
    BySource(Vec<Lanes>),
    /// Each is evaluated where it is read.
    ByEdge,
}

/// Whether no lane of the contribution mentions the weight.
pub fn is_weightless(program: &Program) -> bool
    requires safe { IsAccepted program.now }
    ensures answer { IsTrue result ↔ IsWeightless program.now }
{
    let entries = program.entries();
    for lane in 0..entries.contribute.len() as u32 {
        if mentions_weight(entries.contribute.at(lane)) {
            return false;
        }
    }
    true
}

// What an edge contributes, lane by lane.
fn contributed(
    program: &Program,
    graph: &GraphData,
    degrees: &[u32],
    vals: &[Lanes],
    e: Edge,
) -> Lanes
    requires degrees { degrees.now ≡ out_degrees graph.now }
    requires vals { length vals.now ≡ vertices graph.now }
    requires source { e.src < vertices graph.now }
    requires lanes { let env = contribute_env program.now graph.now vals.now e in
        AreEvaluable program.now env program.now.contribute }
    ensures numbers { result ≡ edge_gives program.now graph.now vals.now e }
{
    let entries = program.entries();
    let zeros = Lanes::zeros(entries.ranges.len() as u32);
    let u = e.src as usize;
    let env = Env {
        val: vals[u],
        agg: zeros,
        old: zeros,
        outdeg: degrees[u],
        weight: e.weight,
        attr: graph.attrs()[u],
        id: e.src,
    };
    evaluated(program, &entries.contribute, &env)
}

// What each edge out of a vertex contributes, where weights don't matter; zeros where there is
// none.
fn source_gives(
    program: &Program,
    graph: &GraphData,
    degrees: &[u32],
    vals: &[Lanes],
    u: u32,
) -> Lanes
    requires before { IsBefore program.now graph.now vals.now }
    requires degrees { degrees.now ≡ out_degrees graph.now }
    requires source { u < vertices graph.now }
    ensures numbers { result ≡ source_gives program.now graph.now vals.now u }
{
    if degrees[u as usize] == 0 {
        return Lanes::zeros(program.entries().ranges.len() as u32);
    }
    let weight = program.entries().limits.weight_lo;
    let e = Edge {
        src: u,
        dst: 0,
        weight,
    };
    contributed(program, graph, degrees, vals, e)
}

// What the edges out of each vertex contribute, where weights don't matter.
fn sources_give(
    alloc: Global,
    program: &Program,
    graph: &GraphData,
    degrees: &[u32],
    vals: &[Lanes],
) -> Result<Vec<Lanes>, Memory>
    requires before { IsBefore program.now graph.now vals.now }
    requires degrees { degrees.now ≡ out_degrees graph.now }
    ensures given { let gives = source_gives program.now graph.now vals.now in
        IfOk result (λ given. given.items ≡ each_vertex graph.now gives) }
{
    let vertices = graph.attrs().len() as u32;
    let mut given = Vec::new(alloc);
    for u in 0..vertices {
        given.push(source_gives(program, graph, degrees, vals, u))?;
    }
    Ok(given)
}

/// The contributions after a row of values.
pub fn contributions_after(
    alloc: Global,
    program: &Program,
    graph: &GraphData,
    degrees: &[u32],
    vals: &[Lanes],
) -> Result<Contributions, Memory>
    requires before { IsBefore program.now graph.now vals.now }
    requires degrees { degrees.now ≡ out_degrees graph.now }
    ensures given { IfOk result (λ given. AreGiven program.now graph.now vals.now given) }
{
    if !is_weightless(program) {
        return Ok(Contributions::ByEdge);
    }
    let given = sources_give(alloc, program, graph, degrees, vals)?;
    Ok(Contributions::BySource(given))
}

/// What an edge contributes, lane by lane.
pub fn edge_gives(
    program: &Program,
    graph: &GraphData,
    degrees: &[u32],
    vals: &[Lanes],
    given: &Contributions,
    e: Edge,
) -> Lanes
    requires before { IsBefore program.now graph.now vals.now }
    requires degrees { degrees.now ≡ out_degrees graph.now }
    requires given { AreGiven program.now graph.now vals.now given.now }
    requires edge { IsEdge program.now graph.now e }
    ensures numbers { result ≡ edge_gives program.now graph.now vals.now e }
{
    match given {
        Contributions::BySource(given) => given[e.src as usize],
        Contributions::ByEdge => contributed(program, graph, degrees, vals, e),
    }
}
