ghost use Rattle.std.specs.Prelude.{◌≡◌, ℕ, ℤ, ◌+◌, ◌<◌, ◌≤◌, ◌^◌, length};
ghost use Rattle.bolt_base.specs.Laws.{OrderIsFree, PiecesAreAll};
ghost use Rattle.bolt_base.specs.LawsOfChange.{OldEdgesAreParts};
ghost use Rattle.bolt_base.specs.LawsOfLists.{ListIsFolded};

use crate::LineCause::{
    Absent, Attribute, Degree, Edges, Present, Size, Syntax, Unfinished, Vertex, Weight,
};
use crate::{
    AttrList, Bytes, Edge, EdgeList, Gate, GraphData, Lanes, Meter, OpenGate, Rows, VisitMeter,
    edges_are_parts, lists_are_graphs, order_is_free, pieces_are_whole,
};
use std::test::Fail;

fn pair(first: i64, second: i64) -> Lanes
    ensures { length result ≡ 2 }
{
    let mut lanes = Lanes::zeros(2);
    lanes.set(0, first);
    lanes.set(1, second);
    lanes
}

#[test]
fn lanes_keep_their_numbers(rt: HostRuntime) {
    let mut lanes = Lanes::zeros(3);
    lanes.set(1, -7);
    for (lane, number) in [(0, 0), (1, -7), (2, 0)] {
        assert_eq!(rt; lanes.get(lane), number, "lane {lane}");
    }
    assert_eq!(rt; lanes.as_slice(), [0, -7, 0].as_slice());
    assert_eq!(rt; lanes.width(), 3);
    assert!(rt; lanes.same(&lanes));
    assert!(rt; !lanes.same(&Lanes::zeros(3)));
}

#[test]
fn numbers_are_printed(rt: HostRuntime) -> Result<(), Fail> {
    let mut text = Bytes::from_slice(rt.alloc(), b"ends ")?;
    text.push_decimal(4294967295)?;
    text.extend_from_slice(b" ")?;
    text.push_signed(-9223372036854775808)?;
    assert_eq!(rt;
        text.as_slice(),
        b"ends 4294967295 -9223372036854775808".as_slice()
    );
    Ok(())
}

#[test]
fn graphs_are_copied(rt: HostRuntime) -> Result<(), Fail> {
    let alloc = rt.alloc();
    let mut attrs = AttrList::new(alloc);
    attrs.push(5)?;
    attrs.push(-6)?;
    let mut edges = EdgeList::new(alloc);
    edges.push(Edge {
        src: 0,
        dst: 1,
        weight: 9,
    })?;
    edges.push(Edge {
        src: 1,
        dst: 0,
        weight: -9,
    })?;
    assert_eq!(rt;
        (attrs.len(), attrs.get(1), edges.get(2)),
        (2, Some(&-6), None)
    );
    let graph = GraphData::new(attrs, edges);
    let copy = graph.copy(alloc)?;
    assert_eq!(rt; copy.attrs(), [5, -6].as_slice());
    let edges = copy.edges();
    assert_eq!(rt; edges.len(), 2);
    assert_eq!(rt;
        edges[1],
        Edge {
            src: 1,
            dst: 0,
            weight: -9
        }
    );
    Ok(())
}

#[test]
fn rows_are_added(rt: HostRuntime) -> Result<(), Fail> {
    let mut rows = Rows::new(rt.alloc(), 2, 2);
    rows.add_row(&[pair(0, 0), pair(0, 0)], &[pair(1, 2), pair(3, 4)])?;
    rows.add_row(&[pair(5, 6), pair(7, 8)], &[pair(9, 10), pair(11, 12)])?;
    assert_eq!(rt; (rows.len(), rows.vertices(), rows.lanes()), (2, 2, 2));
    for (iteration, vertex, lane, agg, val) in [
        (0, 1, 0, 0, 3),
        (1, 0, 0, 5, 9),
        (1, 0, 1, 6, 10),
        (1, 1, 0, 7, 11),
        (1, 1, 1, 8, 12),
    ] {
        assert_eq!(rt;
            rows.agg(iteration, vertex, lane),
            agg,
            "aggregate {iteration} {vertex} {lane}"
        );
        assert_eq!(rt;
            rows.val(iteration, vertex, lane),
            val,
            "value {iteration} {vertex} {lane}"
        );
    }
    Ok(())
}

// Two reads in a piece of one unit, and one outside it.
fn read_three<M: Meter>(meter: &mut M)
    requires room { M.counted meter.old + 3 < 2 ^ 64 }
    requires units { 64 ≤ M.held meter.old }
    ensures count { M.counted meter.new ≡ M.counted meter.old + 3 }
    ensures units { M.held meter.new ≡ M.held meter.old }
{
    let _ = meter.units();
    let mut piece = meter.split(1);
    piece.tick();
    piece.tick();
    meter.tick();
    meter.join(piece);
}

// Passes two pieces of work.
fn pass_two<T: Gate>(gate: &T) {
    gate.pass(0);
    gate.pass(1);
}

#[test]
fn reads_are_counted(rt: HostRuntime) {
    pass_two(&OpenGate);
    let mut meter = VisitMeter::new();
    read_three(&mut meter);
    let (count, units) = (meter.count(), meter.units());
    let visits = meter.finish();
    assert_eq!(rt; (count, units, visits), (3, 64, 3));
}

// The generic laws at types of numbers.
fn laws_at_numbers()
    ensures order { OrderIsFree ℤ }
    ensures pieces { PiecesAreAll ℕ }
    ensures parts { OldEdgesAreParts ℤ }
    ensures folds { ListIsFolded ℤ }
{
    order_is_free::<i64>();
    edges_are_parts::<i64>();
    lists_are_graphs::<i64>();
    pieces_are_whole::<u64>();
}

#[test]
fn causes_are_numbered(rt: HostRuntime) {
    laws_at_numbers();
    let causes = [
        Syntax, Vertex, Weight, Attribute, Present, Absent, Degree, Edges, Size, Unfinished,
    ];
    for (place, cause) in causes.iter().enumerate() {
        assert_eq!(rt; *cause as usize, place + 1);
    }
}
