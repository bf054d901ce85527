// The loop that makes the entered batches, and those that are left.
ghost use Rattle.std.specs.Prelude.{◌≡◌, OnOk};
ghost use Rattle.live_course.specs.Made.{IsWhole};
ghost use Rattle.live_works.specs.Shop.{Standing};

use crate::entering::{Entrant, enter_all, pass_all};
use crate::taking::{Taken, decide, take_next};
use crate::works::{Works, publish_made};
use board::Publisher;
use bolt_base::{Gate, Memory};
use round_journal::{Door, Outcome};
use std::alloc::Global;
use std::sync::Wait;
use std::thread::Threads;

// Makes one entry, and tells whether to go on.
fn make_entry<R: Threads + Wait + Sync, T: Gate + Sync>(
    rt: &R,
    alloc: Global,
    gate: &T,
    door: &Door,
    works: &mut Works<'_>,
    publisher: &mut Publisher,
) -> Result<bool, Memory>
    requires { Standing publisher.old works.old }
    ensures standing { Standing publisher.new works.new }
    ensures files { works.new.files ≡ works.old.files }
    ensures choice { works.new.engine.choice ≡ works.old.engine.choice }
    ensures origin { publisher.new.origin ≡ publisher.old.origin }
    ensures book { publisher.new.book ≡ publisher.old.book }
{
    let Some(taken) = take_next(rt, alloc, door) else {
        return Ok(false);
    };
    let Taken {
        ticket,
        stream,
        batch,
    } = taken;
    let Ok(batch) = batch else {
        decide(rt, door, ticket, Outcome::Memory);
        return Err(Memory);
    };
    if !works.is_next(stream, &batch) {
        return Ok(false);
    }
    match works.make(rt, alloc, gate, publisher, stream) {
        Ok(outcome) => {
            let fits = decide(rt, door, ticket, outcome);
            publish_made(rt, publisher, works, outcome);
            Ok(fits)
        }
        Err(Memory) => {
            decide(rt, door, ticket, Outcome::Memory);
            Err(Memory)
        }
    }
}

/// Makes the entries until the journal is finished or a test of it fails. The batches of `entrants`
/// are entered here too.
pub fn make_entries<R: Threads + Wait + Sync, T: Gate + Sync>(
    rt: &R,
    alloc: Global,
    gate: &T,
    door: &Door,
    works: &mut Works<'_>,
    publisher: &mut Publisher,
    entrants: &mut [Entrant<'_>],
) -> Result<(), Memory>
    requires { Standing publisher.old works.old }
    ensures standing { Standing publisher.new works.new }
    ensures files { works.new.files ≡ works.old.files }
    ensures choice { works.new.engine.choice ≡ works.old.engine.choice }
    ensures origin { publisher.new.origin ≡ publisher.old.origin }
    ensures book { publisher.new.book ≡ publisher.old.book }
{
    pass_all(gate, entrants);
    for _ in rt.forever() {
        enter_all(rt, alloc, door, entrants)?;
        if !make_entry(rt, alloc, gate, door, works, publisher)? {
            return Ok(());
        }
    }
    unreachable!()
}

/// Makes the batches that are left, stream by stream.
pub fn make_left<R: Threads + Wait + Sync, T: Gate + Sync>(
    rt: &R,
    alloc: Global,
    gate: &T,
    works: &mut Works<'_>,
    publisher: &mut Publisher,
) -> Result<(), Memory>
    requires { Standing publisher.old works.old }
    ensures standing { Standing publisher.new works.new }
    ensures whole { OnOk result (IsWhole works.new.files works.new.made) }
    ensures files { works.new.files ≡ works.old.files }
    ensures choice { works.new.engine.choice ≡ works.old.engine.choice }
    ensures origin { publisher.new.origin ≡ publisher.old.origin }
    ensures book { publisher.new.book ≡ publisher.old.book }
{
    for _ in rt.forever() {
        let Some(stream) = works.first_left() else {
            return Ok(());
        };
        let outcome = works.make(rt, alloc, gate, publisher, stream)?;
        publish_made(rt, publisher, works, outcome);
    }
    unreachable!()
}
