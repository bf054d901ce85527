// The values of a vertex.
ghost use Rattle.std.specs.Prelude.{◌≡◌, ◌<◌};
ghost use Rattle.bolt_base.specs.Graph.{IsGood, vertices};
ghost use Rattle.range_check.specs.Breaks.{IsAccepted};
ghost use Rattle.run_model.specs.Rows.{applied, begun};
ghost use Rattle.vertex_expr.specs.ProgramBounds.{aggregated, lane_spans};
ghost use Rattle.vertex_expr.specs.Span.{AreIn};

use adjacency::Adjacency;
use bolt_base::Lanes;
use run_model::evaluated;
use vertex_expr::{Env, Program};

/// The first value of a vertex.
pub fn first_value<A: Adjacency>(program: &Program, graph: &A, v: u32) -> Lanes
    requires safe { IsAccepted program.now }
    requires good { IsGood program.now.limits (A.plain graph.now) }
    requires vertex { v < vertices (A.plain graph.now) }
    ensures value { result ≡ begun program.now (A.plain graph.now) v }
{
    let entries = program.entries();
    let zeros = Lanes::zeros(entries.ranges.len() as u32);
    let env = Env {
        val: zeros,
        agg: zeros,
        old: zeros,
        outdeg: 0,
        weight: 0,
        attr: graph.attr(v),
        id: v,
    };
    evaluated(program, &entries.init, &env)
}

/// The next value of a vertex, from its aggregate and its value before.
pub fn next_value<A: Adjacency>(
    program: &Program,
    graph: &A,
    agg: &Lanes,
    before: &Lanes,
    v: u32,
) -> Lanes
    requires safe { IsAccepted program.now }
    requires good { IsGood program.now.limits (A.plain graph.now) }
    requires agg { AreIn (aggregated program.now) agg.now }
    requires before { AreIn (lane_spans program.now.ranges) before.now }
    requires vertex { v < vertices (A.plain graph.now) }
    ensures value { result ≡ applied program.now (A.plain graph.now) agg.now before.now v }
{
    let entries = program.entries();
    let zeros = Lanes::zeros(entries.ranges.len() as u32);
    let env = Env {
        val: zeros,
        agg: *agg,
        old: *before,
        outdeg: 0,
        weight: 0,
        attr: graph.attr(v),
        id: v,
    };
    evaluated(program, &entries.apply, &env)
}
