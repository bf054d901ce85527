// A board that shows the answer of a run, and a desk that is asked.
ghost use Rattle.std.specs.Prelude.{◌≡◌};
ghost use Rattle.run_model.specs.Rows.{answer};

use crate::rank::rank_program;
use crate::runs::{edits, graph_of};
use adjacency::{Adjacency, Graph};
use board::{Body, Query, Reply, open};
use bolt_base::{Answer, Memory, VisitMeter};
use range_check::{Accepted, check};
use std::alloc::Global;
use std::sync::Wait;
use std::test::Fail;
use sync_engine::full_run;

// Whether a reply at the opening is a value of one lane.
fn is_value(reply: &Reply, x: i64) -> bool {
    match &reply.body {
        Body::Value(value) => reply.prefix == 0 && value.as_slice() == [x].as_slice(),
        _ => false,
    }
}

// Whether a reply at the opening tells that there are three vertices alone.
fn is_absent(reply: &Reply) -> bool {
    reply.prefix == 0 && matches!(reply.body, Body::NoVertex { vertices: 3 })
}

// Whether a desk replies at the opening with the value of a vertex, and that another isn't there.
fn replies_at_opening<R: Wait>(
    rt: &R,
    alloc: Global,
    accepted: &Accepted,
    graph: &Graph,
    start: &Answer,
) -> Result<bool, Memory>
    requires { start.now ≡ answer accepted.now graph.now.now }
{
    let room = graph.vertices();
    let (publisher, mut desks) = open(rt, alloc, accepted, graph, start, room, 1)?;
    let right = match desks.pop() {
        Some(mut desk) => {
            let first = desk.ask(rt, &Query::Value(1));
            let absent = desk.ask(rt, &Query::Value(3));
            is_value(&first, 643_248) && is_absent(&absent)
        }
        None => false,
    };
    publisher.close(rt);
    Ok(right)
}

#[test]
fn a_desk_replies_from_the_opening(rt: HostRuntime) -> Result<(), Fail> {
    let alloc = rt.alloc();
    let accepted = check(alloc, rank_program(alloc)?)?;
    let graph = graph_of(alloc, &accepted, &edits())?;
    let mut meter = VisitMeter::new();
    let run = full_run(&rt, alloc, &accepted, &graph, 2, 1, &mut meter);
    let _visits = meter.finish();
    assert!(rt; replies_at_opening(&rt, alloc, &accepted, &graph, &run?.answer)?);
    Ok(())
}
