// Rows of programs on small graphs, which were worked out by hand.
ghost use Rattle.std.specs.Prelude.{◌<◌, length, IfOk};
ghost use Rattle.bolt_base.specs.Graph.{IsGood};

use crate::shipped;
use bolt_base::{GraphData, Memory, Rows};
use bolt_io::{MemShelf, Shelf};
use graph_text::read_graph;
use range_check::{Accepted, check};
use run_model::plain_run;
use std::alloc::{AllocError, Global};
use std::test::Fail;
use vertex_lang::parse;

const RANK2: &[u8] = b"\
    program rank2\n\
    vertices 1000000\n\
    degree 1000000\n\
    edges 8000000\n\
    weight -1000000 1000000\n\
    attr -1000000 1000000\n\
    rounds 2\n\
    combine sum\n\
    lane 0 0 1000000000000\n\
    init 0 1000000\n\
    contribute 0 val[0] / outdeg\n\
    apply 0 clamp(150000 + agg[0] * 17 / 20, 0, 1000000000000)\n\
";

// The greatest attribute from which a path of at most two edges leads to a vertex.
const TOP: &[u8] = b"\
    program top\n\
    vertices 1000\n\
    degree 10\n\
    edges 1000\n\
    weight -10 10\n\
    attr -100 100\n\
    rounds 2\n\
    combine max -50\n\
    lane 0 -100 100\n\
    init 0 attr\n\
    contribute 0 val[0]\n\
    apply 0 max(old[0], agg[0])\n\
";

const FAR: i64 = 1_000_000_000_000_000;

const ONE: i64 = 1_000_000;

// The graph of a text that has no bad line.
fn graph_in(alloc: Global, text: &[u8], accepted: &Accepted) -> Result<GraphData, Memory>
    ensures good { IfOk result (λ graph. IsGood accepted.now.limits graph) }
{
    let mut shelf = MemShelf::new(alloc, 100);
    shelf.put_file("graph", text)?;
    let Ok(slot) = shelf.open("graph") else {
        return Err(Memory);
    };
    let limits = &accepted.program().entries().limits;
    let Ok(graph) = read_graph(alloc, &mut shelf, slot, limits) else {
        return Err(Memory);
    };
    Ok(graph)
}

// The aggregate and the value of each lane of each vertex.
fn entries_at(alloc: Global, rows: &Rows, i: u32) -> Result<Vec<(i64, i64)>, AllocError>
    requires row { i < length rows.now.rows }
{
    let mut entries = Vec::new(alloc);
    for v in 0..rows.vertices() {
        for lane in 0..rows.lanes() {
            entries.push((rows.agg(i, v, lane), rows.val(i, v, lane)))?;
        }
    }
    Ok(entries)
}

// Whether the row of the program is the expected one.
fn has_row(
    alloc: Global,
    program: &[u8],
    graph: &[u8],
    i: u32,
    expected: &[(i64, i64)],
) -> Result<bool, Fail> {
    let accepted = check(alloc, parse(alloc, program)?)?;
    let graph = graph_in(alloc, graph, &accepted)?;
    let rows = plain_run(alloc, &accepted, &graph)?;
    if i < rows.len() {
        let entries = entries_at(alloc, &rows, i)?;
        Ok(entries.as_slice() == expected)
    } else {
        Ok(false)
    }
}

#[test]
fn a_sum_is_as_worked_out(rt: HostRuntime) -> Result<(), Fail> {
    let square = b"0 1\n1 2\n2 0\n0 2\n".as_slice();
    let expected = [
        (1_425_000, 1_361_250),
        (500_000, 575_000),
        (1_075_000, 1_063_750),
    ];
    assert!(rt; has_row(rt.alloc(), RANK2, square, 2, &expected)?);
    Ok(())
}

#[test]
fn a_minimum_is_as_worked_out(rt: HostRuntime) -> Result<(), Fail> {
    let dist = shipped("dist").unwrap_or(b"");
    let graph = b"0 1 4\n0 2 1\n2 1 2\nattr 0 1\n".as_slice();
    let expected = [(FAR, 0), (3, 3), (1, 1)];
    assert!(rt; has_row(rt.alloc(), dist, graph, 16, &expected)?);
    Ok(())
}

#[test]
fn a_maximum_is_as_worked_out(rt: HostRuntime) -> Result<(), Fail> {
    let path = b"attr 0 -7\nattr 1 -9\nattr 2 -8\n0 1\n1 2\n".as_slice();
    let expected = [(-50, -7), (-7, -7), (-7, -7)];
    assert!(rt; has_row(rt.alloc(), TOP, path, 2, &expected)?);
    Ok(())
}
