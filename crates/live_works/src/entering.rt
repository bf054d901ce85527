// Batches are entered under the lock.
ghost use Rattle.std.specs.Prelude.{◌≡◌, ◌<◌};
ghost use Rattle.round_journal.specs.declared.journal.TheConstants.{MOST_ORIGINS};

use bolt_base::{Gate, Memory};
use graph_text::BatchText;
use round_journal::{Door, EnterError, MOST_ORIGINS};
use std::alloc::Global;
use std::sync::Wait;

/// The first piece that the gate is told of a stream.
const STREAM_PIECE: u32 = 100;

/// Closes an origin.
pub fn close_origin<R: Wait>(rt: &R, door: &Door, origin: u32)
    requires { origin < MOST_ORIGINS }
{
    door.lock(rt).close(origin);
    door.wake(rt);
}

/// Closes every origin.
pub fn close_all<R: Wait>(rt: &R, door: &Door) {
    for origin in 0..MOST_ORIGINS as u32 {
        close_origin(rt, door, origin);
    }
}

// Enters a batch, and waits where the journal is full. It tells whether the origin was open and
// memory was found, or else whether memory was wanting.
fn enter_waiting<R: Wait>(
    rt: &R,
    door: &Door,
    origin: u32,
    batch: BatchText,
) -> Result<bool, Memory>
    requires { origin < MOST_ORIGINS }
{
    let mut next = batch;
    let mut guard = door.lock(rt);
    for _ in rt.forever() {
        match guard.enter(origin, next) {
            Ok(_ticket) => {
                drop(guard);
                door.wake(rt);
                return Ok(true);
            }
            Err(EnterError::Full { batch, .. }) => {
                next = batch;
                guard = door.wait(rt, guard);
            }
            Err(EnterError::Closed { .. }) => return Ok(false),
            Err(EnterError::Memory { .. }) => return Err(Memory),
        }
    }
    unreachable!()
}

// Enters copies of the batches in order, until the origin is closed.
fn enter_each<R: Wait>(
    rt: &R,
    alloc: Global,
    door: &Door,
    origin: u32,
    batches: &[BatchText],
) -> Result<(), Memory>
    requires { origin < MOST_ORIGINS }
{
    for batch in batches {
        if !enter_waiting(rt, door, origin, batch.copy(alloc)?)? {
            break;
        }
    }
    Ok(())
}

/// Enters copies of a stream's batches in order, and then closes its origin. It tells whether
/// memory was found.
pub fn submit<R: Wait, T: Gate>(
    rt: &R,
    alloc: Global,
    gate: &T,
    door: &Door,
    origin: u32,
    batches: &[BatchText],
) -> Result<(), Memory>
    requires { origin < MOST_ORIGINS }
{
    gate.pass(STREAM_PIECE + origin);
    let entered = enter_each(rt, alloc, door, origin, batches);
    close_origin(rt, door, origin);
    entered
}

/// A stream whose batches the loop enters itself.
#[derive(Drop)]
pub struct Entrant<'a> {
    origin: u32,
    batches: &'a [BatchText],
    next: usize,
    open: bool,
    ghost within: { origin < 16 },
}

impl<'a> Entrant<'a> {
    /// A stream of which no batch was entered.
    pub fn new(origin: u32, batches: &'a [BatchText]) -> Entrant<'a>
        requires { origin < MOST_ORIGINS }
    {
        Entrant {
            origin,
            batches,
            next: 0,
            open: true,
        }
    }

    // Closes the origin.
    fn close<R: Wait>(&mut self, rt: &R, door: &Door) {
        close_origin(rt, door, self.origin);
        self.open = false;
    }

    // Enters the next batch, and tells whether there is room for more. The origin is closed behind
    // the last one.
    fn enter_next<R: Wait>(&mut self, rt: &R, alloc: Global, door: &Door) -> Result<bool, Memory> {
        if self.next >= self.batches.len() {
            self.close(rt, door);
            return Ok(false);
        }
        let Ok(batch) = self.batches[self.next].copy(alloc) else {
            self.close(rt, door);
            return Err(Memory);
        };
        let entered = door.lock(rt).enter(self.origin, batch);
        match entered {
            Ok(_ticket) => {
                self.next += 1;
                Ok(true)
            }
            Err(EnterError::Full { .. }) => Ok(false),
            Err(EnterError::Closed { .. }) => {
                self.open = false;
                Ok(false)
            }
            Err(EnterError::Memory { .. }) => {
                self.close(rt, door);
                Err(Memory)
            }
        }
    }

    // Enters batches while there is room.
    fn enter_some<R: Wait>(&mut self, rt: &R, alloc: Global, door: &Door) -> Result<(), Memory> {
        if !self.open {
            return Ok(());
        }
        for _ in rt.forever() {
            if !self.enter_next(rt, alloc, door)? {
                break;
            }
        }
        Ok(())
    }
}

/// Tells the gate of each of these streams.
pub(crate) fn pass_all<T: Gate>(gate: &T, entrants: &[Entrant<'_>]) {
    for entrant in entrants {
        gate.pass(STREAM_PIECE + entrant.origin);
    }
}

/// Enters batches of each of these streams while there is room.
pub(crate) fn enter_all<R: Wait>(
    rt: &R,
    alloc: Global,
    door: &Door,
    entrants: &mut [Entrant<'_>],
) -> Result<(), Memory> {
    for entrant in entrants.iter_mut() {
        entrant.enter_some(rt, alloc, door)?;
    }
    Ok(())
}
