// An aggregate, by reading the edges into a vertex.
ghost use Rattle.std.specs.Prelude.{◌≡◌, ◌<◌, ◌+◌, ◌^◌};
ghost use Rattle.bolt_base.specs.Graph.{vertices, indeg};
ghost use Rattle.run_model.specs.Rows.{gathered};
ghost use Rattle.run_model.specs.Given.{AreGiven, IsBefore};

use crate::contributions::gather_edge;
use crate::value_row::ValueRow;
use adjacency::{Metered, Near};
use bolt_base::{Lanes, Meter};
use run_model::{Contributions, empties};
use vertex_expr::Program;

/// The aggregate of a vertex. It reads each edge into it once.
pub fn pull<M: Meter, A: Metered<M>, V: ValueRow>(
    program: &Program,
    graph: &A,
    row: &V,
    given: &Contributions,
    v: u32,
    meter: &mut M,
) -> Lanes
    requires before { IsBefore program.now (A.plain graph.now) (V.values row.now) }
    requires given { AreGiven program.now (A.plain graph.now) (V.values row.now) given.now }
    requires vertex { v < vertices (A.plain graph.now) }
    requires room { M.counted meter.old + indeg (A.plain graph.now) v < 2 ^ 64 }
    ensures aggregate { result ≡ gathered program.now (A.plain graph.now) (V.values row.now) v }
    ensures count { M.counted meter.new ≡ M.counted meter.old + indeg (A.plain graph.now) v }
    ensures units { M.held meter.new ≡ M.held meter.old }
{
    let mut near = Near::new();
    let mut totals = empties(program);
    for k in 0..graph.in_degree(v) {
        let e = graph.in_edge_near(v, k, &mut near, meter);
        gather_edge(program, graph, row, given, e, &mut totals);
    }
    totals
}
