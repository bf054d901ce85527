// The batches of the rows of the program, on the graph alone.
use crate::cases::{
    BadRow, MadeRow, WIDE, add, attr, bad_rows, cut, edge, made_rows, source, turned,
};
use bolt_base::{Limits, LineCause};
use std::test::Fail;

// The limits of the refusals, each of which some row meets.
const TIGHT: Limits = Limits {
    vertices: 8,
    degree: 2,
    edges: 10,
    weight_lo: -1000000,
    weight_hi: 1000000,
    attr_lo: 0,
    attr_hi: 100,
};

#[test]
fn rows_that_are_refused(rt: HostRuntime) -> Result<(), Fail> {
    let triangle = [
        attr(0, 0),
        attr(1, 0),
        attr(2, 0),
        add(0, 1, 1),
        add(1, 2, 1),
        add(2, 0, 1),
    ];
    let meeting = [
        attr(0, 0),
        attr(1, 0),
        attr(2, 0),
        attr(3, 0),
        add(0, 1, 1),
        add(2, 1, 1),
    ];
    let middle = [
        attr(0, 0),
        attr(1, 0),
        attr(2, 0),
        attr(3, 0),
        attr(4, 0),
        attr(5, 0),
        attr(6, 0),
        attr(7, 0),
        add(0, 1, 1),
        add(3, 4, 1),
    ];
    let rows: [BadRow; 10] = [
        (
            "degree-at-limit",
            &meeting,
            &[add(3, 1, 1), cut(0, 1)],
            0,
            LineCause::Degree,
        ),
        (
            "refused-in-the-middle",
            &middle,
            &[add(4, 5, 1), cut(0, 1), cut(5, 6)],
            2,
            LineCause::Absent,
        ),
        (
            "six-refusals, the first",
            &triangle,
            &[add(0, 3, 1)],
            0,
            LineCause::Vertex,
        ),
        (
            "six-refusals, the second",
            &triangle,
            &[add(0, 1, 1)],
            0,
            LineCause::Present,
        ),
        (
            "six-refusals, the third",
            &triangle,
            &[cut(0, 2)],
            0,
            LineCause::Absent,
        ),
        (
            "six-refusals, the fourth",
            &triangle,
            &[add(0, 2, 1000001)],
            0,
            LineCause::Weight,
        ),
        (
            "attribute-edits, the third",
            &triangle,
            &[attr(0, 101)],
            0,
            LineCause::Attribute,
        ),
        (
            "attribute-edits, the fourth",
            &triangle,
            &[attr(4, 1)],
            0,
            LineCause::Vertex,
        ),
        (
            "vertices-added, the second",
            &triangle,
            &[add(3, 0, 1), attr(3, 0)],
            0,
            LineCause::Vertex,
        ),
        (
            "room-at-program-limit",
            &middle,
            &[attr(7, 0), attr(8, 0)],
            1,
            LineCause::Vertex,
        ),
    ];
    assert_eq!(rt; bad_rows(rt.alloc(), TIGHT, &rows)?, rows.len());
    Ok(())
}

#[test]
fn rows_that_are_made(rt: HostRuntime) -> Result<(), Fail> {
    let square = [
        attr(0, 0),
        attr(1, 0),
        attr(2, 0),
        add(0, 1, 1),
        add(1, 2, 1),
        add(2, 0, 1),
        add(0, 2, 1),
    ];
    let meeting = [
        attr(0, 0),
        attr(1, 0),
        attr(2, 0),
        attr(3, 0),
        add(0, 1, 1),
        add(2, 1, 1),
    ];
    let wide = [
        attr(0, 0),
        attr(1, 0),
        add(0, 1, i64::MAX),
        add(1, 0, i64::MIN),
    ];
    let rows: [MadeRow; 10] = [
        ("empty-batch", &square, &[], &[], &[], &[], &[]),
        ("first-vertex", &[], &[attr(0, 0)], &[], &[], &[], &[]),
        (
            "cut-one",
            &square,
            &[cut(0, 2)],
            &[],
            &[edge(0, 2, 1)],
            &[source(0, 2)],
            &[],
        ),
        (
            "triangle-cut",
            &square[..6],
            &[cut(2, 0)],
            &[],
            &[edge(2, 0, 1)],
            &[source(2, 1)],
            &[],
        ),
        (
            "edge-comes-back",
            &square,
            &[cut(0, 1), add(0, 1, 1)],
            &[],
            &[],
            &[],
            &[],
        ),
        (
            "edge-comes-back, the second",
            &square,
            &[cut(0, 1), add(0, 1, 2)],
            &[edge(0, 1, 2)],
            &[edge(0, 1, 1)],
            &[source(0, 2)],
            &[],
        ),
        (
            "degree-at-limit, the second",
            &meeting,
            &[cut(0, 1), add(3, 1, 1)],
            &[edge(3, 1, 1)],
            &[edge(0, 1, 1)],
            &[source(0, 1), source(3, 0)],
            &[],
        ),
        (
            "wide-sums",
            &wide,
            &[
                cut(0, 1),
                add(0, 1, i64::MIN),
                cut(1, 0),
                add(1, 0, i64::MAX),
            ],
            &[edge(0, 1, i64::MIN), edge(1, 0, i64::MAX)],
            &[edge(0, 1, i64::MAX), edge(1, 0, i64::MIN)],
            &[source(0, 1), source(1, 1)],
            &[],
        ),
        (
            "attribute-and-cut",
            &[attr(0, 4), attr(1, 0), add(0, 1, 1)],
            &[attr(0, 8), cut(0, 1)],
            &[],
            &[edge(0, 1, 1)],
            &[source(0, 1)],
            &[turned(0, 4, 8)],
        ),
        (
            "vertices-added",
            &[attr(0, 0), attr(1, 0), add(0, 1, 1)],
            &[attr(2, 7), add(0, 2, 1), add(2, 1, 1)],
            &[edge(0, 2, 1), edge(2, 1, 1)],
            &[],
            &[source(0, 1), source(2, 0)],
            &[],
        ),
    ];
    assert_eq!(rt; made_rows(rt.alloc(), WIDE, &rows)?, rows.len());
    Ok(())
}
