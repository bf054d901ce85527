// Bad batches, and the changes of good ones.
use crate::cases::{
    BadRow, MadeRow, NARROW, WIDE, add, attr, bad_rows, cut, edge, made_rows, source, turned,
};
use bolt_base::{Edit, LineCause};
use std::test::Fail;

// Three vertices.
const BARE: [Edit; 3] = [
    Edit::Attr { vertex: 0, attr: 1 },
    Edit::Attr { vertex: 1, attr: 2 },
    Edit::Attr { vertex: 2, attr: 3 },
];

#[test]
fn bad_numbers(rt: HostRuntime) -> Result<(), Fail> {
    let pair = [attr(0, 1), attr(1, 2), add(0, 1, 4)];
    let rows: [BadRow; 14] = [
        (
            "weight below",
            &pair,
            &[add(1, 0, -6)],
            0,
            LineCause::Weight,
        ),
        (
            "weight above",
            &pair,
            &[add(1, 0, -5), add(1, 1, 6)],
            1,
            LineCause::Weight,
        ),
        (
            "least weight",
            &pair,
            &[add(1, 0, i64::MIN)],
            0,
            LineCause::Weight,
        ),
        (
            "greatest weight",
            &pair,
            &[add(1, 0, i64::MAX)],
            0,
            LineCause::Weight,
        ),
        (
            "attribute below",
            &pair,
            &[attr(0, -1)],
            0,
            LineCause::Attribute,
        ),
        (
            "attribute above",
            &pair,
            &[attr(0, 9), attr(2, 10)],
            1,
            LineCause::Attribute,
        ),
        (
            "least attribute",
            &pair,
            &[attr(0, i64::MIN)],
            0,
            LineCause::Attribute,
        ),
        ("no source", &pair, &[add(2, 0, 1)], 0, LineCause::Vertex),
        (
            "no destination",
            &pair,
            &[add(0, u32::MAX, 1)],
            0,
            LineCause::Vertex,
        ),
        (
            "cut at no vertex",
            &pair,
            &[cut(0, 2)],
            0,
            LineCause::Vertex,
        ),
        (
            "vertex too soon",
            &pair,
            &[attr(3, 0), attr(2, 0)],
            0,
            LineCause::Vertex,
        ),
        (
            "last vertex number",
            &pair,
            &[attr(u32::MAX, 0)],
            0,
            LineCause::Vertex,
        ),
        (
            "vertex past the room",
            &pair,
            &[attr(2, 0), attr(3, 0)],
            1,
            LineCause::Vertex,
        ),
        (
            "first vertex too late",
            &[],
            &[attr(1, 0)],
            0,
            LineCause::Vertex,
        ),
    ];
    assert_eq!(rt; bad_rows(rt.alloc(), NARROW, &rows)?, rows.len());
    Ok(())
}

#[test]
fn bad_edges(rt: HostRuntime) -> Result<(), Fail> {
    let pair = [attr(0, 1), attr(1, 2), add(0, 1, 4)];
    let loops = [attr(0, 0), attr(1, 0), add(0, 0, 1), add(0, 1, 1)];
    let full = [
        attr(0, 0),
        attr(1, 0),
        add(0, 0, 1),
        add(0, 1, 1),
        add(1, 0, 1),
    ];
    let rows: [BadRow; 13] = [
        (
            "full out",
            &BARE,
            &[add(0, 0, 1), add(0, 1, 1), add(0, 2, 1)],
            2,
            LineCause::Degree,
        ),
        (
            "full in",
            &BARE,
            &[add(0, 0, 1), add(1, 0, 1), add(2, 0, 1)],
            2,
            LineCause::Degree,
        ),
        (
            "full before",
            &loops,
            &[attr(2, 0), add(0, 2, 1)],
            1,
            LineCause::Degree,
        ),
        (
            "full edge list",
            &full,
            &[add(1, 1, 1)],
            0,
            LineCause::Edges,
        ),
        (
            "full of new ones",
            &pair,
            &[add(0, 0, 1), add(1, 1, 1), add(1, 0, 1)],
            2,
            LineCause::Edges,
        ),
        ("present", &pair, &[add(0, 1, 4)], 0, LineCause::Present),
        (
            "present since",
            &pair,
            &[add(1, 1, 0), add(1, 1, 0)],
            1,
            LineCause::Present,
        ),
        ("absent", &pair, &[cut(1, 0)], 0, LineCause::Absent),
        (
            "absent since",
            &pair,
            &[cut(0, 1), cut(0, 1)],
            1,
            LineCause::Absent,
        ),
        (
            "weight before present",
            &pair,
            &[add(0, 1, 6)],
            0,
            LineCause::Weight,
        ),
        (
            "vertex before weight",
            &pair,
            &[add(0, 2, 6)],
            0,
            LineCause::Vertex,
        ),
        (
            "present before degree",
            &loops,
            &[add(0, 1, 1)],
            0,
            LineCause::Present,
        ),
        (
            "degree before edges",
            &full,
            &[attr(2, 0), add(0, 2, 1)],
            1,
            LineCause::Degree,
        ),
    ];
    assert_eq!(rt; bad_rows(rt.alloc(), NARROW, &rows)?, rows.len());
    Ok(())
}

#[test]
fn made_edges(rt: HostRuntime) -> Result<(), Fail> {
    let pair = [attr(0, 1), attr(1, 2), add(0, 1, 4)];
    let twice = [attr(0, 0), attr(1, 0), add(0, 0, 1), add(0, 1, 2)];
    let low = [attr(0, 0), attr(1, 0), add(0, 1, i64::MIN)];
    let rows: [MadeRow; 12] = [
        ("empty", &pair, &[], &[], &[], &[], &[]),
        (
            "self loop",
            &pair,
            &[add(1, 1, 3)],
            &[edge(1, 1, 3)],
            &[],
            &[source(1, 0)],
            &[],
        ),
        (
            "self loop cut",
            &twice,
            &[cut(0, 0)],
            &[],
            &[edge(0, 0, 1)],
            &[source(0, 2)],
            &[],
        ),
        (
            "cut and back",
            &pair,
            &[cut(0, 1), add(0, 1, 4)],
            &[],
            &[],
            &[],
            &[],
        ),
        (
            "added and cut",
            &pair,
            &[add(1, 0, 1), cut(1, 0)],
            &[],
            &[],
            &[],
            &[],
        ),
        (
            "another weight",
            &pair,
            &[cut(0, 1), add(0, 1, -4)],
            &[edge(0, 1, -4)],
            &[edge(0, 1, 4)],
            &[source(0, 1)],
            &[],
        ),
        (
            "another weight and back",
            &pair,
            &[cut(0, 1), add(0, 1, 0), cut(0, 1), add(0, 1, 4)],
            &[],
            &[],
            &[],
            &[],
        ),
        (
            "another weight and cut",
            &pair,
            &[cut(0, 1), add(0, 1, 0), cut(0, 1)],
            &[],
            &[edge(0, 1, 4)],
            &[source(0, 1)],
            &[],
        ),
        (
            "edges rise",
            &twice,
            &[add(1, 1, 7), add(1, 0, 8), cut(0, 1), cut(0, 0)],
            &[edge(1, 0, 8), edge(1, 1, 7)],
            &[edge(0, 0, 1), edge(0, 1, 2)],
            &[source(0, 2), source(1, 0)],
            &[],
        ),
        (
            "least to greatest weight",
            &low,
            &[cut(0, 1), add(0, 1, i64::MAX)],
            &[edge(0, 1, i64::MAX)],
            &[edge(0, 1, i64::MIN)],
            &[source(0, 1)],
            &[],
        ),
        (
            "least weight back",
            &low,
            &[cut(0, 1), add(0, 1, i64::MIN)],
            &[],
            &[],
            &[],
            &[],
        ),
        (
            "both ends of the range",
            &low,
            &[add(1, 0, i64::MAX), add(1, 1, i64::MIN)],
            &[edge(1, 0, i64::MAX), edge(1, 1, i64::MIN)],
            &[],
            &[source(1, 0)],
            &[],
        ),
    ];
    assert_eq!(rt; made_rows(rt.alloc(), WIDE, &rows)?, rows.len());
    Ok(())
}

#[test]
fn made_vertices(rt: HostRuntime) -> Result<(), Fail> {
    let pair = [attr(0, 1), attr(1, 2), add(0, 1, 4)];
    let rows: [MadeRow; 8] = [
        (
            "attribute",
            &pair,
            &[attr(1, 9)],
            &[],
            &[],
            &[],
            &[turned(1, 2, 9)],
        ),
        (
            "attribute as it is",
            &pair,
            &[attr(1, 2)],
            &[],
            &[],
            &[],
            &[],
        ),
        (
            "attribute and back",
            &pair,
            &[attr(1, 9), attr(1, 2)],
            &[],
            &[],
            &[],
            &[],
        ),
        (
            "attributes rise",
            &pair,
            &[attr(1, i64::MAX), attr(0, 5), attr(0, i64::MIN)],
            &[],
            &[],
            &[],
            &[turned(0, 1, i64::MIN), turned(1, 2, i64::MAX)],
        ),
        (
            "new vertex",
            &pair,
            &[attr(2, 3), attr(2, 8)],
            &[],
            &[],
            &[],
            &[],
        ),
        (
            "first vertices",
            &[],
            &[attr(0, 3), attr(1, 8)],
            &[],
            &[],
            &[],
            &[],
        ),
        (
            "new vertex at once",
            &pair,
            &[
                attr(2, 7),
                add(2, 2, 1),
                add(0, 2, 1),
                attr(0, 0),
                add(2, 0, 5),
            ],
            &[edge(0, 2, 1), edge(2, 0, 5), edge(2, 2, 1)],
            &[],
            &[source(0, 1), source(2, 0)],
            &[turned(0, 1, 0)],
        ),
        (
            "new vertex left alone",
            &pair,
            &[attr(2, 7), add(2, 2, 1), cut(2, 2), cut(0, 1)],
            &[],
            &[edge(0, 1, 4)],
            &[source(0, 1)],
            &[],
        ),
    ];
    assert_eq!(rt; made_rows(rt.alloc(), WIDE, &rows)?, rows.len());
    Ok(())
}
