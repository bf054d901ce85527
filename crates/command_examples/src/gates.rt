// Pieces of work are under way at once.
use crate::rows::{row_of, shelf_of, status_of};
use bolt_base::Gate;
use bolt_io::MemSink;
use std::sync::atomic::{AtomicBool, AtomicU32, Ordering};
use std::test::Fail;

// How often a holder looks whether it may go on.
const TURNS: u32 = 200_000_000;

const ROW: &str = "cut-one: run file:p h s --workers=2
<p = rank
rounds 2
<h
0 1
1 2
2 0
0 2
<s
- 0 2
commit
>0
open vertices 3 edges 4 kept 5 visits 8
value 0 1361250
value 1 575000
value 2 1063750
batch 1 accepted added 0 removed 1 edges 3 kept 3 visits 6
set 0 1000000
set 1 1000000
set 2 1000000
total 0 3000000
end accepted 1 refused 0
";

// Counts the pieces 0 and 1, and holds each piece 0 until a piece 1 has passed.
#[derive(Drop)]
struct MeetingGate {
    first: AtomicU32,
    second: AtomicU32,
    is_late: AtomicBool,
}

impl Gate for MeetingGate {
    fn pass(&self, piece: u32) {
        if piece == 1 {
            self.second.fetch_add(1, Ordering::SeqCst);
        }
        if piece == 0 {
            self.first.fetch_add(1, Ordering::SeqCst);
            for _ in 0..TURNS {
                if self.second.load(Ordering::SeqCst) > 0 {
                    return;
                }
            }
            self.is_late.store(true, Ordering::SeqCst);
        }
    }
}

#[test]
fn two_pieces_meet(rt: HostRuntime) -> Result<(), Fail> {
    let alloc = rt.alloc();
    let gate = MeetingGate {
        first: AtomicU32::new(0),
        second: AtomicU32::new(0),
        is_late: AtomicBool::new(false),
    };
    let row = row_of(ROW).ok_or("a row")?;
    let mut shelf = shelf_of(alloc, row.files, 500)?;
    let mut out = MemSink::new(alloc, 500);
    let status = status_of(&rt, alloc, row.lines, &mut shelf, &mut out, &gate)?;
    assert!(rt; status == 0 && out.written() == row.text.as_bytes());
    assert!(rt; gate.first.load(Ordering::SeqCst) >= 2);
    assert!(rt; gate.second.load(Ordering::SeqCst) >= 2);
    assert!(rt; !gate.is_late.load(Ordering::SeqCst));
    Ok(())
}
