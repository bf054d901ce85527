// The next value of a vertex, from those of all.
ghost use Rattle.std.specs.Prelude.{◌≡◌, ◌<◌};
ghost use Rattle.bolt_base.specs.Graph.{vertices};
ghost use Rattle.run_model.specs.Rows.{applied, at, each_vertex, gathered};
ghost use Rattle.run_model.specs.Given.{IsBefore};

use adjacency::Adjacency;
use bolt_base::Lanes;
use vertex_expr::Program;
use vertex_steps::next_value;

/// The next value of a vertex, after the aggregates and the values before of all vertices.
#[inline]
pub fn next_value_of<A: Adjacency>(
    program: &Program,
    graph: &A,
    aggs: &[Lanes],
    vals: &[Lanes],
    v: u32,
) -> Lanes
    requires before { IsBefore program.now (A.plain graph.now) vals.now }
    requires aggs { aggs.now
        ≡ each_vertex (A.plain graph.now) (gathered program.now (A.plain graph.now) vals.now) }
    requires vertex { v < vertices (A.plain graph.now) }
    ensures value { result
        ≡ applied program.now (A.plain graph.now)
        (gathered program.now (A.plain graph.now) vals.now v) (at vals.now v) v }
{
    let agg = aggs[v as usize];
    let before = vals[v as usize];
    next_value(program, graph, &agg, &before, v)
}
