ghost use Rattle.std.specs.Prelude.{◌<◌, ◌≤◌, length, IfOk};

use crate::{FeedError, Line, LineFeed, vertex_word, whole_word};
use bolt_base::Memory;
use bolt_io::{MemShelf, Shelf, ShelfFault};
use std::alloc::Global;
use std::test::Fail;

/// A shelf whose slot 0 has this text.
fn opened(alloc: Global, text: &[u8], piece: usize) -> Result<MemShelf, Memory>
    requires { 1 ≤ piece }
    ensures { IfOk result (λ shelf. 0 < length shelf.shelf.told.slots) }
{
    let mut shelf = MemShelf::new(alloc, piece);
    shelf.put_file("text", text)?;
    let Ok(_slot) = shelf.open("text") else {
        return Err(Memory);
    };
    Ok(shelf)
}

/// The length of each line, 999 for a long one, as far as four lines.
fn four_lines(alloc: Global, text: &[u8], piece: usize) -> Result<[usize; 4], Fail> {
    let mut shelf = opened(alloc, text, piece.max(1))?;
    let mut feed = LineFeed::new(alloc, 0);
    let mut lengths = [777; 4];
    for length in lengths.iter_mut() {
        match feed.next(&mut shelf)? {
            None => return Ok(lengths),
            Some(Line::Long { number: _ }) => *length = 999,
            Some(Line::Text { number: _, bytes }) => *length = bytes.len(),
        }
    }
    Ok(lengths)
}

#[test]
fn lines_are_told(rt: HostRuntime) -> Result<(), Fail> {
    let alloc = rt.alloc();
    let mut long = vec![in alloc; b'x'; 255]?;
    long.extend_from_slice(b"\r\n")?;
    long.resize(257 + 256, b'y')?;
    long.extend_from_slice(b"\n")?;
    long.resize(514 + 70000, b'z')?;
    long.extend_from_slice(b"\nend\r")?;
    for piece in [1, 3, 100000] {
        for (text, lengths) in [
            (b"".as_slice(), [777, 777, 777, 777]),
            (b"\n".as_slice(), [0, 777, 777, 777]),
            (b"ab\r\nc\rd\n\r\n\r".as_slice(), [2, 3, 0, 1]),
            (b"\t# ab".as_slice(), [5, 777, 777, 777]),
            (long.as_slice(), [255, 999, 999, 4]),
        ] {
            assert_eq!(rt; four_lines(alloc, text, piece)?, lengths);
        }
    }
    Ok(())
}

#[test]
fn a_feed_goes_on_after_a_fault(rt: HostRuntime) -> Result<(), Fail> {
    let alloc = rt.alloc();
    let mut shelf = opened(alloc, b"first\nsecond", 4)?;
    shelf.fail_at(3)?;
    let mut feed = LineFeed::new(alloc, 0);
    let fault = feed.next(&mut shelf);
    assert!(rt; matches!(fault, Err(FeedError::Shelf(ShelfFault::Failed))));
    for (want, text) in [(1, b"first".as_slice()), (2, b"second".as_slice())] {
        let line = feed.next(&mut shelf)?;
        assert!(rt;
            matches!(&line, Some(Line::Text { number, bytes }) if *number == want
                && bytes.as_slice() == text),
            "line {want}"
        );
    }
    let end = feed.next(&mut shelf)?;
    assert!(rt; end.is_none());
    Ok(())
}

#[test]
fn numbers_at_their_limits(rt: HostRuntime) {
    for (word, vertex, whole) in [
        (b"007".as_slice(), Some(7), Some(7)),
        (b"4294967295".as_slice(), Some(4294967295), Some(4294967295)),
        (b"4294967296".as_slice(), None, Some(4294967296)),
        (b"-9223372036854775808".as_slice(), None, Some(i64::MIN)),
        (b"9223372036854775808".as_slice(), None, None),
        (b"--1".as_slice(), None, None),
    ] {
        assert_eq!(rt; vertex_word(word), vertex);
        assert_eq!(rt; whole_word(word), whole);
    }
}
