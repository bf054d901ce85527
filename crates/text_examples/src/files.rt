// Reads and writes in memory, in pieces of each size and with one failing call after another.
ghost use Rattle.std.specs.Prelude.{◌+◌, ◌<◌, ◌≤◌, ◌^◌};

use bolt_io::{
    CalmShelf, CalmSink, MemShelf, MemSink, OpenFault, ReadFault, Shelf, ShelfFault, SinkFault,
    put_all, read_whole,
};
use std::alloc::Global;
use std::test::Fail;

#[derive(Clone, Copy, Debug, PartialEq, Eq)]
enum Stop {
    Open(OpenFault),
    Read(ReadFault),
}

// The whole of a file.
fn text_of<S: Shelf>(alloc: Global, shelf: &mut S, name: &str) -> Result<Vec<u8>, Stop>
    requires { S.opened shelf.old < 2 ^ 31 }
    ensures { S.opened shelf.new ≤ S.opened shelf.old + 1 }
{
    let slot = match shelf.open(name) {
        Ok(slot) => slot,
        Err(fault) => return Err(Stop::Open(fault)),
    };
    match read_whole(alloc, shelf, slot) {
        Ok(text) => Ok(text),
        Err(fault) => Err(Stop::Read(fault)),
    }
}

#[test]
fn reads_in_pieces(rt: HostRuntime) -> Result<(), Fail> {
    for piece in [1, 2, 100] {
        assert!(rt; piece >= 1);
        let mut calm = CalmShelf::new(rt.alloc(), piece);
        calm.put_file("other", b"no")?;
        calm.put_file("name", b"hello")?;
        let text = text_of(rt.alloc(), &mut calm, "name").expect(&rt, "a calm shelf");
        assert!(rt; text.as_slice() == b"hello".as_slice(), "pieces of {piece}");
        let text = text_of(rt.alloc(), &mut calm, "names").expect(&rt, "a calm shelf");
        assert!(rt; text.is_empty());
    }
    Ok(())
}

#[test]
fn failing_reads_one_by_one(rt: HostRuntime) -> Result<(), Fail> {
    let read = Some(Stop::Read(ReadFault::Shelf(ShelfFault::Failed)));
    let stops = [
        Some(Stop::Open(OpenFault::Failed)),
        read,
        read,
        read,
        read,
        None,
    ];
    for (k, expected) in stops.iter().enumerate() {
        let mut shelf = MemShelf::new(rt.alloc(), 2);
        shelf.put_file("name", b"hello")?;
        shelf.fail_at(k as u64 + 1)?;
        let stop = text_of(rt.alloc(), &mut shelf, "name").err();
        assert!(rt; stop == *expected, "at call {k}");
    }
    Ok(())
}

#[test]
fn writes_in_pieces(rt: HostRuntime) -> Result<(), Fail> {
    for piece in [1, 4, 100] {
        assert!(rt; piece >= 1);
        let mut sink = CalmSink::new(rt.alloc(), piece);
        put_all(&mut sink, b"hello").expect(&rt, "a calm sink");
        assert!(rt; sink.written() == b"hello".as_slice(), "pieces of {piece}");
    }
    Ok(())
}

#[test]
fn failing_writes_one_by_one(rt: HostRuntime) -> Result<(), Fail> {
    let texts: [&[u8]; 4] = [b"", b"he", b"hell", b"hello"];
    for (k, expected) in texts.iter().enumerate() {
        let mut sink = MemSink::new(rt.alloc(), 2);
        sink.fail_at(k as u64 + 1)?;
        let fault = put_all(&mut sink, b"hello").err();
        let wanted = if k < 3 { Some(SinkFault::Failed) } else { None };
        assert!(rt; fault == wanted, "at call {k}");
        assert!(rt; sink.written() == *expected, "at call {k}");
    }
    Ok(())
}
