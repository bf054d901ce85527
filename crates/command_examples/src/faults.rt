// Faults of the shelf and of the sink, one call at a time.
ghost use Rattle.std.specs.Prelude.{◌≡◌, []};

use crate::rows::{Row, row_of, shelf_of, status_of, text_of};
use bolt_base::{Memory, OpenGate};
use bolt_io::{MemShelf, MemSink};
use std::alloc::Global;
use std::process::Abort;
use std::test::Fail;
use std::thread::Threads;

// Texts of this length are read and written in pieces of 5 and 20 bytes.
const ROWS: &str = "triangle-cut: run rank g s
<g
0 1
1 2
2 0
<s
- 2 0
commit
>0
open vertices 3 edges 3 kept 3 visits 30
value 0 1000000
value 1 1000000
value 2 1000000
batch 1 accepted added 0 removed 1 edges 2 kept 6 visits 27
set 0 150000
set 1 277500
set 2 385875
total 0 813375
end accepted 1 refused 0

refused-in-the-middle: run file:p g s --show=none
<p = base
degree 100
<g
vertices 8
0 1
1 2
2 0
<s
# first
+ 3 4
commit
# second
+ 4 5
- 0 1
- 5 6
commit
+ 4 5
commit
>1
open vertices 8 edges 3 kept 3 visits 3
batch 1 accepted added 1 removed 0 edges 4 kept 4 visits 1
batch 2 refused line 7 absent
batch 3 accepted added 1 removed 0 edges 5 kept 5 visits 1
total 0 5
end accepted 2 refused 1

once: once rank g
<g
0 1
>0
once vertices 2 edges 1 visits 10
value 0 150000
value 1 277500
total 0 427500

make: make 7 3 2 1 2 graph
>0
vertices 3
2 0 1
2 1 1

check: check file:p
<p = base
rounds 0
>3
program refused toobig at 79";

// Tries a row where a call is to fail, and tells whether none was. What is written is a prefix of
// the row's text, and all of it with the row's status, or else the status is that of the fault.
fn is_whole<R: Abort + Threads + Sync>(
    rt: &R,
    alloc: Global,
    row: &Row,
    shelf: &mut MemShelf,
    out: &mut MemSink,
    fault: u8,
) -> Result<bool, Memory>
    requires { shelf.old.shelf.told.slots ≡ [] }
{
    let text = text_of(alloc, row.text)?;
    let status = status_of(rt, alloc, row.lines, shelf, out, &OpenGate)?;
    assert!(rt; text.as_bytes().starts_with(out.written()), "{}", row.name);
    if status == fault {
        return Ok(false);
    }
    let is_all = out.written() == text.as_bytes();
    assert!(rt; status == row.status && is_all, "{}: {status}", row.name);
    Ok(true)
}

// How many calls of the shelf a row makes, each of which fails once.
fn shelf_calls<R: Abort + Threads + Sync>(rt: &R, alloc: Global, row: &Row) -> Result<u64, Memory> {
    for call in 0..100 {
        let mut shelf = shelf_of(alloc, row.files, 5)?;
        shelf.fail_at(call + 1)?;
        let mut out = MemSink::new(alloc, 20);
        if is_whole(rt, alloc, row, &mut shelf, &mut out, 5)? {
            return Ok(call);
        }
    }
    Ok(100)
}

// How many writes a row makes, each of which fails once.
fn sink_calls<R: Abort + Threads + Sync>(rt: &R, alloc: Global, row: &Row) -> Result<u64, Memory> {
    for call in 0..100 {
        let mut shelf = shelf_of(alloc, row.files, 500)?;
        let mut out = MemSink::new(alloc, 20);
        out.fail_at(call + 1)?;
        if is_whole(rt, alloc, row, &mut shelf, &mut out, 6)? {
            return Ok(call);
        }
    }
    Ok(100)
}

#[test]
fn each_call_fails_once(rt: HostRuntime) -> Result<(), Fail> {
    let alloc = rt.alloc();
    for text in ROWS.split("\n\n") {
        let row = row_of(text).ok_or("a row")?;
        let reads = shelf_calls(&rt, alloc, &row)?;
        let writes = sink_calls(&rt, alloc, &row)?;
        assert!(rt;
            reads < 100 && writes > 1 && writes < 100,
            "{reads}, {writes}"
        );
        assert!(rt; row.name != "triangle-cut" || reads == 10, "{reads}");
    }
    Ok(())
}

// The first read of the stream fails, and the last one.
#[test]
fn late_reads_fail(rt: HostRuntime) -> Result<(), Fail> {
    let alloc = rt.alloc();
    let first = ROWS.split("\n\n").next().ok_or("a row")?;
    let row = row_of(first).ok_or("a row")?;
    for (call, next) in [(7, "batch"), (10, "total")] {
        let (written, _) = row.text.split_once(next).ok_or("a line")?;
        let mut shelf = shelf_of(alloc, row.files, 5)?;
        shelf.fail_at(call)?;
        let mut out = MemSink::new(alloc, 20);
        let status = status_of(&rt, alloc, row.lines, &mut shelf, &mut out, &OpenGate)?;
        assert!(rt;
            status == 5 && out.written() == written.as_bytes(),
            "{call}: {status}"
        );
    }
    Ok(())
}
