// Graphs and batches that are read and printed.
ghost use Rattle.std.specs.Prelude.{◌<◌, ◌≤◌, length, IfOk};

use bolt_base::LineCause::{Degree, Edges, Syntax, Unfinished};
use bolt_base::{Edge, Edit, Limits, Memory};
use bolt_io::{MemShelf, Shelf};
use graph_text::{BadLine, BatchReader, GraphRefusal, print_batch, print_graph, read_graph};
use std::alloc::Global;
use std::test::Fail;

/// A shelf whose slot 0 has this text.
fn opened(alloc: Global, text: &[u8], piece: usize) -> Result<MemShelf, Memory>
    requires { 1 ≤ piece }
    ensures { IfOk result (λ shelf. 0 < length shelf.shelf.told.slots) }
{
    let mut shelf = MemShelf::new(alloc, piece);
    shelf.put_file("text", text)?;
    let Ok(_slot) = shelf.open("text") else {
        return Err(Memory);
    };
    Ok(shelf)
}

fn limits(degree: u32) -> Limits {
    Limits {
        vertices: 1000,
        degree,
        edges: 4,
        weight_lo: -10,
        weight_hi: 10,
        attr_lo: -100,
        attr_hi: 100,
    }
}

#[test]
fn a_graph_is_read_and_printed(rt: HostRuntime) -> Result<(), Fail> {
    let alloc = rt.alloc();
    let text = b"# nodes 4\r\nattr 2 -7\r\n0\t1\r\n\r\n 2\t0 -10\r\n3\t0 # late";
    let mut shelf = opened(alloc, text, 7)?;
    let graph = read_graph(alloc, &mut shelf, 0, &limits(2))?;
    let wanted = b"vertices 4\nattr 2 -7\n0 1 1\n2 0 -10\n3 0 1\n";
    assert!(rt; print_graph(alloc, &graph)?.as_slice() == wanted.as_slice());
    Ok(())
}

#[test]
fn graphs_are_refused(rt: HostRuntime) -> Result<(), Fail> {
    let alloc = rt.alloc();
    for (text, number, cause) in [
        (b"0 1\n0 2".as_slice(), 2, Degree),
        (b"0 1\n1 2\n2 3\n3 4\n4 5".as_slice(), 5, Edges),
        (b"0 1\r\n1 0\r".as_slice(), 2, Syntax),
    ] {
        let mut shelf = opened(alloc, text, 1)?;
        let refusal = read_graph(alloc, &mut shelf, 0, &limits(1)).err();
        assert!(rt; refusal == Some(GraphRefusal::Line { number, cause }));
    }
    Ok(())
}

#[test]
fn batches_are_read(rt: HostRuntime) -> Result<(), Fail> {
    let alloc = rt.alloc();
    let text =
        b"# first\n+ 0 3\ncommit\n\ncommit # empty\r\n- 0 2\nv 1 -5\n* 1 2\n+ 0 1 7\ncommit\n\
        commit x\n- 0 1\ncommit\r";
    let mut shelf = opened(alloc, text, 5)?;
    let mut reader = BatchReader::new(alloc, 0);
    for (first, edits, line, bad) in [
        (2, 1, 2, None),
        (5, 0, 0, None),
        (
            6,
            2,
            7,
            Some(BadLine {
                line: 8,
                cause: Syntax,
            }),
        ),
        (
            11,
            0,
            0,
            Some(BadLine {
                line: 11,
                cause: Unfinished,
            }),
        ),
    ] {
        let Some(batch) = reader.next(&mut shelf)? else {
            return Ok(assert!(rt; false));
        };
        assert!(rt; batch.first_line == first && batch.edits.len() == edits);
        assert!(rt; batch.lines.as_slice().last().copied().unwrap_or(0) == line);
        assert!(rt; batch.bad == bad);
        let copy = batch.copy(alloc)?;
        assert!(rt; copy.edits.as_slice() == batch.edits.as_slice());
    }
    assert!(rt; reader.next(&mut shelf)?.is_none());
    Ok(())
}

#[test]
fn edits_are_printed(rt: HostRuntime) -> Result<(), Fail> {
    let alloc = rt.alloc();
    let edits = [
        Edit::Add(Edge {
            src: 3,
            dst: 4,
            weight: -5,
        }),
        Edit::Cut { src: 0, dst: 10 },
        Edit::Attr { vertex: 7, attr: 0 },
    ];
    let wanted = b"+ 3 4 -5\n- 0 10\nv 7 0\ncommit\n";
    assert!(rt; print_batch(alloc, &edits)?.as_slice() == wanted.as_slice());
    Ok(())
}
