// What one edge adds.
ghost use Rattle.std.specs.Prelude.{◌≡◌, ◌<◌, ◌++◌, ◌-ℤ◌, length, OnOk};
ghost use Rattle.run_model.specs.Additions.{amounts_of};
ghost use Rattle.run_model.specs.Given.{IsBefore, IsEdge, edge_gives};
ghost use Rattle.run_model.specs.Rows.{contribution};
ghost use Rattle.core_adds.specs.Differences.{differences};
ghost use Rattle.core_adds.specs.Sides.{change_gift, removed_gift, added_gift, seen, AreSides};

use crate::addition::{Addition, AdditionList};
use adjacency::Metered;
use bolt_base::{Edge, Lanes, Memory, VisitMeter};
use vertex_expr::Program;
use vertex_steps::{LaneRow, evaluated_at};

// Appends, lane by lane, the numbers less those that were, for the words of a vertex.
fn push_differences(
    list: &mut AdditionList,
    dst: u32,
    now: &Lanes,
    was: &Lanes,
) -> Result<(), Memory>
    requires { length now.now ≡ length was.now }
    ensures { OnOk result (list.new ≡ list.old ++ differences dst now.now was.now) }
{
    let first = dst as usize * now.width() as usize;
    for lane in 0..now.width() {
        let amount = now.get(lane).wrapping_sub(was.get(lane)).cast_unsigned();
        list.push(Addition::new(first + lane as usize, amount))?;
    }
    Ok(())
}

// What an edge contributes, lane by lane.
fn gives<A: Metered<VisitMeter>>(program: &Program, graph: &A, vals: &[Lanes], e: Edge) -> Lanes
    requires before { IsBefore program.now (A.plain graph.now) vals.now }
    requires edge { IsEdge program.now (A.plain graph.now) e }
    ensures { result ≡ edge_gives program.now (A.plain graph.now) vals.now e }
{
    let row = LaneRow { lanes: vals };
    evaluated_at(program, graph, &row, e.src, e.weight)
}

/// Appends minus the old contribution of a removed edge.
pub(crate) fn push_removed<A: Metered<VisitMeter>>(
    list: &mut AdditionList,
    program: &Program,
    graph: &A,
    vals: &[Lanes],
    e: Edge,
) -> Result<(), Memory>
    requires before { IsBefore program.now (A.plain graph.now) vals.now }
    requires edge { IsEdge program.now (A.plain graph.now) e }
    ensures { OnOk result (list.new ≡ list.old ++ amounts_of program.now
        (removed_gift (contribution program.now (A.plain graph.now) vals.now) e)) }
{
    let was = gives(program, graph, vals, e);
    let zeros = Lanes::zeros(was.width());
    push_differences(list, e.dst, &zeros, &was)
}

/// Appends the new contribution of an added edge.
pub(crate) fn push_added<A: Metered<VisitMeter>>(
    list: &mut AdditionList,
    program: &Program,
    graph: &A,
    vals: &[Lanes],
    e: Edge,
) -> Result<(), Memory>
    requires before { IsBefore program.now (A.plain graph.now) vals.now }
    requires edge { IsEdge program.now (A.plain graph.now) e }
    ensures { OnOk result (list.new ≡ list.old ++ amounts_of program.now
        (added_gift (contribution program.now (A.plain graph.now) vals.now) e)) }
{
    let now = gives(program, graph, vals, e);
    let zeros = Lanes::zeros(now.width());
    push_differences(list, e.dst, &now, &zeros)
}

/// Appends the new contribution of an edge that stayed, less the old one.
pub(crate) fn push_change<A: Metered<VisitMeter>>(
    list: &mut AdditionList,
    program: &Program,
    old: &A,
    new: &A,
    was: &[Lanes],
    now: &[Lanes],
    e: Edge,
) -> Result<(), Memory>
    requires sides { AreSides program.now
        (seen (A.plain old.now) (A.plain new.now) was.now now.now) }
    requires had { IsEdge program.now (A.plain old.now) e }
    requires has { IsEdge program.now (A.plain new.now) e }
    ensures { OnOk result (list.new ≡ list.old ++ amounts_of program.now
        (change_gift (contribution program.now (A.plain old.now) was.now)
        (contribution program.now (A.plain new.now) now.now) e)) }
{
    let old_lanes = gives(program, old, was, e);
    let new_lanes = gives(program, new, now, e);
    push_differences(list, e.dst, &new_lanes, &old_lanes)
}
