// What the loop does under the lock: it takes entries, and decides them.
use bolt_base::Memory;
use graph_text::BatchText;
use round_journal::{Door, Outcome};
use std::alloc::Global;
use std::sync::Wait;

/// An entry that was taken. There is no batch where no memory was found for a copy.
#[derive(Drop)]
pub(crate) struct Taken {
    pub(crate) ticket: u64,
    pub(crate) stream: u32,
    pub(crate) batch: Result<BatchText, Memory>,
}

/// The lowest undecided entry. It waits for one, and there is none once the journal is finished.
pub(crate) fn take_next<R: Wait>(rt: &R, alloc: Global, door: &Door) -> Option<Taken> {
    let mut guard = door.lock(rt);
    for _ in rt.forever() {
        if let Some(ticket) = guard.next_pending() {
            return Some(Taken {
                ticket,
                stream: guard.entry(ticket).origin,
                batch: guard.copy(alloc, ticket),
            });
        }
        if guard.finished() {
            return None;
        }
        guard = door.wait(rt, guard);
    }
    unreachable!()
}

/// Decides a ticket if it is still the lowest undecided one and the round is the next one, and
/// tells whether it did.
pub(crate) fn decide<R: Wait>(rt: &R, door: &Door, ticket: u64, outcome: Outcome) -> bool {
    let mut guard = door.lock(rt);
    let fits = guard.next_pending() == Some(ticket) && guard.accepts(&outcome);
    if fits {
        guard.decide(ticket, outcome);
    }
    drop(guard);
    door.wake(rt);
    fits
}
