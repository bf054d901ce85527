// The row of iteration 0.
ghost use Rattle.std.specs.Prelude.{◌≡◌, IfOk};
ghost use Rattle.bolt_base.specs.Graph.{IsGood};
ghost use Rattle.range_check.specs.Breaks.{IsAccepted};
ghost use Rattle.run_model.specs.Rows.{entries};

use crate::entries::EntryRow;
use adjacency::Adjacency;
use bolt_base::{Lanes, Memory};
use std::alloc::Global;
use vertex_expr::Program;
use vertex_steps::first_value;

/// The row of iteration 0: zeros and the first value of each vertex.
pub fn first_row<A: Adjacency>(
    alloc: Global,
    program: &Program,
    graph: &A,
) -> Result<EntryRow, Memory>
    requires safe { IsAccepted program.now }
    requires good { IsGood program.now.limits (A.plain graph.now) }
    ensures { IfOk result (λ row. row ≡ entries program.now (A.plain graph.now) 0) }
{
    let zeros = Lanes::zeros(program.entries().ranges.len() as u32);
    let mut row = Vec::new(alloc);
    for v in 0..graph.vertices() {
        let value = first_value(program, graph, v);
        row.push((zeros, value))?;
    }
    Ok(EntryRow::from_vec(row))
}
