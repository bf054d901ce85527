// Threads that add to one word and mark the same bits, and the table with nothing in it.
ghost use Rattle.std.specs.Prelude.{◌≡◌, ◌≤◌, ◌*◌};

use crate::{AggSeat, AggWords};
use std::test::Fail;
use std::thread::{Threads, join_mut};

const ADDITIONS: u32 = 1000;

const AMOUNT: u64 = (1 << 63) + 1;

const BITS: u32 = 100;

// Adds to word 0 so often.
fn add_often(words: &AggWords, seat: &mut AggSeat)
    requires table { seat.old.table ≡ words.now.table }
    requires words { 1 ≤ words.now.layout.words }
    requires unit { 1 ≤ seat.old.view.units }
    ensures table { seat.new.table ≡ seat.old.table }
    ensures units { seat.new.view.units ≡ seat.old.view.units }
{
    for _ in 0..ADDITIONS {
        words.add(seat, 0, AMOUNT);
    }
}

// Marks all bits, and counts those that it saw clear.
fn mark_all(words: &AggWords, seat: &mut AggSeat) -> u32
    requires table { seat.old.table ≡ words.now.table }
    requires bits { BITS ≤ words.now.layout.bits }
    requires unit { 1 ≤ seat.old.view.units }
    ensures count { result ≤ BITS }
    ensures table { seat.new.table ≡ seat.old.table }
    ensures units { seat.new.view.units ≡ seat.old.view.units }
{
    let mut clear = 0;
    for bit in 0..BITS {
        if words.mark(seat, bit) {
            clear += 1;
        }
    }
    clear
}

fn work(words: &AggWords, seat: &mut AggSeat) -> u32
    requires table { seat.old.table ≡ words.now.table }
    requires words { 1 ≤ words.now.layout.words }
    requires bits { BITS ≤ words.now.layout.bits }
    requires unit { 1 ≤ seat.old.view.units }
    ensures count { result ≤ BITS }
    ensures table { seat.new.table ≡ seat.old.table }
    ensures units { seat.new.view.units ≡ seat.old.view.units }
{
    add_often(words, seat);
    mark_all(words, seat)
}

// Two threads, each with a unit.
fn work_twice(rt: &impl Threads, words: &AggWords, seat: &mut AggSeat) -> u32
    requires table { seat.old.table ≡ words.now.table }
    requires words { 1 ≤ words.now.layout.words }
    requires bits { BITS ≤ words.now.layout.bits }
    requires units { 2 ≤ seat.old.view.units }
    ensures count { result ≤ 2 * BITS }
    ensures table { seat.new.table ≡ seat.old.table }
    ensures units { seat.new.view.units ≡ seat.old.view.units }
{
    let mut other = words.split(seat, 1);
    let (first, second) = join_mut(
        rt,
        &mut || work(words, seat),
        &mut || work(words, &mut other),
    );
    words.join(seat, other);
    first + second
}

// Four threads, each with a unit.
fn work_four_times<R: Threads + Sync>(rt: &R, words: &AggWords, seat: &mut AggSeat) -> u32
    requires table { seat.old.table ≡ words.now.table }
    requires words { 1 ≤ words.now.layout.words }
    requires bits { BITS ≤ words.now.layout.bits }
    requires units { 4 ≤ seat.old.view.units }
    ensures table { seat.new.table ≡ seat.old.table }
    ensures units { seat.new.view.units ≡ seat.old.view.units }
{
    let mut other = words.split(seat, 2);
    let (first, second) = join_mut(
        rt,
        &mut || work_twice(rt, words, seat),
        &mut || work_twice(rt, words, &mut other),
    );
    words.join(seat, other);
    first + second
}

#[test]
fn words_wrap(rt: HostRuntime) -> Result<(), Fail> {
    let (words, mut seat) = AggWords::new(rt.alloc(), 1, BITS, 4)?;
    let clear = work_four_times(&rt, &words, &mut seat);
    let sum = words.take(&mut seat, 0);
    let rest = words.take(&mut seat, 0);
    words.wipe(&mut seat, 0);
    let low = words.mark(&mut seat, 63);
    let high = words.mark(&mut seat, 64);
    words.close(seat);
    assert_eq!(rt; sum, 4000);
    assert_eq!(rt; rest, 0);
    assert_eq!(rt; clear, BITS);
    assert!(rt; low);
    assert!(rt; !high);
    Ok(())
}

#[test]
fn clears(rt: HostRuntime) -> Result<(), Fail> {
    let (words, mut seat) = AggWords::new(rt.alloc(), 3, 130, 1)?;
    words.add(&mut seat, 2, u64::MAX);
    words.add(&mut seat, 1, 7);
    let first = words.mark(&mut seat, 129);
    let again = words.mark(&mut seat, 129);
    words.know(&mut seat);
    let below = words.take(&mut seat, 2);
    words.clear(&mut seat);
    let cleared = words.take(&mut seat, 1);
    let fresh = words.mark(&mut seat, 129);
    words.close(seat);
    assert!(rt; first && !again && fresh);
    assert_eq!(rt; below, -1);
    assert_eq!(rt; cleared, 0);
    Ok(())
}

#[test]
fn has_no_words(rt: HostRuntime) -> Result<(), Fail> {
    let (words, mut seat) = AggWords::new(rt.alloc(), 0, 65, 2)?;
    let mut other = words.split(&mut seat, 1);
    let first = words.mark(&mut other, 0);
    let again = words.mark(&mut seat, 0);
    let last = words.mark(&mut seat, 64);
    words.join(&mut seat, other);
    words.wipe_bits(&mut seat, &[63]);
    let wiped = words.mark(&mut seat, 0);
    let kept = words.mark(&mut seat, 64);
    words.clear_words(&mut seat);
    words.clear_marks(&mut seat);
    let cleared = words.mark(&mut seat, 64);
    assert_eq!(rt; words.layout().bits, 65);
    words.close(seat);
    assert!(rt; first && !again && last);
    assert!(rt; wiped && !kept && cleared);
    Ok(())
}
