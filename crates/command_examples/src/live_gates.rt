// Faults and gates of `live`.
ghost use Rattle.std.specs.Prelude.{◌≡◌, []};

use crate::live_rows::{ASKED, is_of_row, live_status};
use crate::rows::{Row, row_of, shelf_of};
use bolt_base::{Gate, Memory, OpenGate};
use bolt_io::{MemShelf, MemSink};
use std::alloc::Global;
use std::process::Abort;
use std::sync::Wait;
use std::sync::atomic::{AtomicBool, Ordering};
use std::test::Fail;
use std::thread::Threads;

// Tries a row where a call is to fail, and tells whether none was. What is written is a part of one
// of the row's texts, and all of it with the row's status, or else the status is that of the fault.
fn is_whole<R: Abort + Wait + Threads + Sync>(
    rt: &R,
    alloc: Global,
    row: &Row,
    shelf: &mut MemShelf,
    out: &mut MemSink,
    fault: u8,
) -> Result<bool, Memory>
    requires { shelf.old.shelf.told.slots ≡ [] }
{
    let status = live_status(rt, alloc, row.lines, shelf, out, &OpenGate)?;
    let is_failed = status == fault;
    let is_fitting = is_of_row(alloc, row, out.written(), is_failed)?;
    assert!(rt;
        is_fitting && (is_failed || status == row.status),
        "{status}"
    );
    Ok(!is_failed)
}

// How many calls of the shelf a row makes, each of which fails once. Nothing is written then.
fn shelf_calls<R: Abort + Wait + Threads + Sync>(
    rt: &R,
    alloc: Global,
    row: &Row,
) -> Result<u64, Memory> {
    for call in 0..100 {
        let mut shelf = shelf_of(alloc, row.files, 5)?;
        shelf.fail_at(call + 1)?;
        let mut out = MemSink::new(alloc, 20);
        if is_whole(rt, alloc, row, &mut shelf, &mut out, 5)? {
            return Ok(call);
        }
        assert!(rt; out.written().is_empty());
    }
    Ok(100)
}

// How many writes a row makes, each of which fails once.
fn sink_calls<R: Abort + Wait + Threads + Sync>(
    rt: &R,
    alloc: Global,
    row: &Row,
) -> Result<u64, Memory> {
    for call in 0..100 {
        let mut shelf = shelf_of(alloc, row.files, 500)?;
        let mut out = MemSink::new(alloc, 20);
        out.fail_at(call + 1)?;
        if is_whole(rt, alloc, row, &mut shelf, &mut out, 6)? {
            return Ok(call);
        }
    }
    Ok(100)
}

#[test]
fn each_call_of_live_fails_once(rt: HostRuntime) -> Result<(), Fail> {
    let alloc = rt.alloc();
    let row = row_of(ASKED).ok_or("a row")?;
    let reads = shelf_calls(&rt, alloc, &row)?;
    let writes = sink_calls(&rt, alloc, &row)?;
    assert!(rt; reads == 16, "{reads}");
    assert!(rt; writes > 10 && writes < 100, "{writes}");
    Ok(())
}

// How often a holder looks whether it may go on.
const TURNS: u32 = 200_000_000;

// Holds a place until another one has been passed.
#[derive(Drop)]
struct HoldingGate {
    held: u32,
    awaited: u32,
    has_passed: AtomicBool,
    is_late: AtomicBool,
}

impl Gate for HoldingGate {
    fn pass(&self, piece: u32) {
        if piece == self.awaited {
            self.has_passed.store(true, Ordering::SeqCst);
        }
        if piece == self.held {
            for _ in 0..TURNS {
                if self.has_passed.load(Ordering::SeqCst) {
                    return;
                }
            }
            self.is_late.store(true, Ordering::SeqCst);
        }
    }
}

// Streams are 100 and 101, questions 200, their end 300, the end of the batches 400, and the first
// piece of a refinement 0. With the questions first all replies have the prefix 0, and with the
// batches first they have 1.
const HELD: [(u32, u32, &str); 4] = [
    (100, 101, "live rank g --stream=s --stream=t"),
    (101, 0, "live rank g --stream=s --stream=t"),
    (100, 300, "live rank g --stream=s --ask=q"),
    (200, 400, "live rank g --stream=s --ask=q"),
];

const FILES: &str = "g
0 1
1 2
2 0
<s
- 2 0
commit
<t
commit
<q
value 3
prefix
sum";

// Tries a command line whose threads are held so.
fn try_held<R: Abort + Wait + Threads + Sync>(
    rt: &R,
    alloc: Global,
    held: u32,
    awaited: u32,
    line: &str,
) -> Result<(), Memory> {
    let gate = HoldingGate {
        held,
        awaited,
        has_passed: AtomicBool::new(false),
        is_late: AtomicBool::new(false),
    };
    let mut shelf = shelf_of(alloc, FILES, 500)?;
    let mut out = MemSink::new(alloc, 500);
    let status = live_status(rt, alloc, line, &mut shelf, &mut out, &gate)?;
    let is_late = gate.is_late.load(Ordering::SeqCst);
    assert!(rt; status == 0 && !is_late, "{held}: {status}");
    let text = str::from_utf8(out.written()).unwrap_or("");
    let is_first = text.contains("reply 0 1 prefix 0 novertex 3\nreply 0 2 prefix 0\n");
    let is_last = text.contains("reply 0 1 prefix 1 novertex 3\nreply 0 2 prefix 1\n");
    assert!(rt; is_first == (awaited == 300), "{held}: {text}");
    assert!(rt; is_last == (awaited == 400), "{held}: {text}");
    Ok(())
}

#[test]
fn threads_of_live_meet(rt: HostRuntime) -> Result<(), Fail> {
    for (held, awaited, line) in HELD {
        try_held(&rt, rt.alloc(), held, awaited, line)?;
    }
    Ok(())
}
