// What the edges give in an iteration.
ghost use Rattle.std.specs.Prelude.{◌≡◌, ◌<◌, length};
ghost use Rattle.bolt_base.specs.Graph.{vertices};
ghost use Rattle.run_model.specs.Program.{OnesFit, by_lane, lanes, with_ones};
ghost use Rattle.run_model.specs.Rows.{contribution, contribute_env};
ghost use Rattle.run_model.specs.Evaluable.{AreEvaluable};
ghost use Rattle.run_model.specs.Given.{AreGiven, IsBefore, IsEdge, edge_gives, source_gives};

use crate::gathering::gather;
use crate::value_row::ValueRow;
use adjacency::Adjacency;
use bolt_base::{Edge, Lanes};
use run_model::{Contributions, evaluated};
use vertex_expr::{Env, Program};

/// What an edge out of a vertex contributes, lane by lane.
pub fn evaluated_at<A: Adjacency, V: ValueRow>(
    program: &Program,
    graph: &A,
    row: &V,
    u: u32,
    weight: i64,
) -> Lanes
    requires source { u < vertices (A.plain graph.now) }
    requires before { IsBefore program.now (A.plain graph.now) (V.values row.now) }
    requires evaluable { AreEvaluable program.now
        (contribute_env program.now (A.plain graph.now) (V.values row.now)
        (record { src = u; dst = 0; weight = weight })) program.now.contribute }
    ensures numbers { result
        ≡ by_lane program.now (λ l.
        contribution program.now (A.plain graph.now) (V.values row.now) l
        (record { src = u; dst = 0; weight = weight })) }
{
    let entries = program.entries();
    let zeros = Lanes::zeros(entries.ranges.len() as u32);
    let env = Env {
        val: row.value(u),
        agg: zeros,
        old: zeros,
        outdeg: graph.out_degree(u),
        weight,
        attr: graph.attr(u),
        id: u,
    };
    evaluated(program, &entries.contribute, &env)
}

/// What each edge out of a vertex contributes, where weights don't matter; zeros for a vertex
/// without edges.
pub fn source_gives<A: Adjacency, V: ValueRow>(
    program: &Program,
    graph: &A,
    row: &V,
    u: u32,
) -> Lanes
    requires source { u < vertices (A.plain graph.now) }
    requires before { IsBefore program.now (A.plain graph.now) (V.values row.now) }
    ensures numbers { result ≡ source_gives program.now (A.plain graph.now) (V.values row.now) u }
{
    if graph.out_degree(u) == 0 {
        return Lanes::zeros(program.entries().ranges.len() as u32);
    }
    let weight = program.entries().limits.weight_lo;
    evaluated_at(program, graph, row, u, weight)
}

/// Adds what an edge contributes to what others came to, lane by lane. A contribution that stands
/// in a table is read there and not copied.
#[inline]
pub fn gather_edge<A: Adjacency, V: ValueRow>(
    program: &Program,
    graph: &A,
    row: &V,
    given: &Contributions,
    e: Edge,
    totals: &mut Lanes,
)
    requires before { IsBefore program.now (A.plain graph.now) (V.values row.now) }
    requires given { AreGiven program.now (A.plain graph.now) (V.values row.now) given.now }
    requires edge { IsEdge program.now (A.plain graph.now) e }
    requires long { length totals.old ≡ lanes program.now }
    requires fits { OnesFit program.now totals.old
        (edge_gives program.now (A.plain graph.now) (V.values row.now) e) }
    ensures totals { totals.new ≡ with_ones program.now totals.old
        (edge_gives program.now (A.plain graph.now) (V.values row.now) e) }
{
    let combine = program.entries().combine;
    match given {
        Contributions::BySource(given) => gather(combine, totals, &given[e.src as usize]),
        Contributions::ByEdge => {
            let ones = evaluated_at(program, graph, row, e.src, e.weight);
            gather(combine, totals, &ones);
        }
    }
}
