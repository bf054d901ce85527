// Each call once; two threads enter batches through a door.
ghost use Rattle.std.specs.Prelude.{◌<◌};

use bolt_base::{EditList, LineList};
use graph_text::BatchText;
use round_journal::{Door, EnterError, Journal, Outcome};
use std::alloc::Global;
use std::process::Abort;
use std::sync::Wait;
use std::test::*;
use std::thread::join;

fn empty_batch(alloc: Global) -> BatchText {
    BatchText {
        first_line: 7,
        edits: EditList::new(alloc),
        lines: LineList::new(alloc),
        bad: None,
    }
}

#[test]
fn journal_calls(rt: HostRuntime) -> Result<(), Fail> {
    let alloc = rt.alloc();
    let mut journal = Journal::new(alloc, 2)?;
    let ticket = journal.enter(1, empty_batch(alloc)).ok();
    assert!(rt; ticket == Some(1));
    let closed = journal.enter(2, empty_batch(alloc));
    assert!(rt; matches!(closed, Err(EnterError::Closed { .. })));
    if let Some(ticket) = journal.next_pending() {
        assert!(rt; journal.entry(ticket).origin == 1);
        let copy = journal.copy(alloc, ticket)?;
        assert!(rt; copy.first_line == 7);
        journal.decide(ticket, Outcome::Memory);
    }
    assert!(rt; journal.next_pending() == None);
    Ok(())
}

fn enter_batch<R: Wait>(rt: &R, door: &Door, alloc: Global, origin: u32) -> bool
    requires { origin < 16 }
{
    let mut journal = door.lock(rt);
    let entered = journal.enter(origin, empty_batch(alloc)).is_ok();
    journal.close(origin);
    entered
}

#[test]
fn door_calls(rt: HostRuntime) -> Result<(), Fail> {
    let alloc = rt.alloc();
    let door = Door::new(Journal::new(alloc, 2)?);
    let (first, second) = join(
        &rt,
        || enter_batch(&rt, &door, alloc, 0),
        || enter_batch(&rt, &door, alloc, 1),
    );
    door.wake(&rt);
    assert!(rt; first && second);
    let journal = door.finish();
    assert!(rt; journal.len() == 2 && journal.accepted() == 0 && !journal.finished());
    Ok(())
}
