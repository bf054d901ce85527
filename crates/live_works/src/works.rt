// The engine, and the batches that it made.
ghost use Rattle.std.specs.Prelude.{◌≡◌, ◌+◌, ◌<◌, ◌≤◌, ◌^◌, ℕ, [], ◌∷◌, ◌++◌, length, replicate};
ghost use Rattle.std.specs.Prelude.{slice_index_or, slice_set, true, IfOk, OnErr, IfSome, IfNone};
ghost use Rattle.std.specs.Prelude.{IsFalse, IsTrue, vec_capacity};
ghost use Rattle.graph_text.specs.declared.batch_text.BatchText.{BatchText};
ghost use Rattle.engine_runs.specs.State.{IsUnderWay};
ghost use Rattle.live_course.specs.Made.{AreSound, file_of};
ghost use Rattle.live_works.specs.Shop.{HasNext, IsFit, IsPending, Standing, made_of, new_shop};
ghost use Rattle.live_works.specs.Shop.{shop};

use crate::kept::{count, kept, same_batch};
use crate::making::make_batch;
use board::Publisher;
use bolt_base::{Gate, Items, Memory};
use graph_text::BatchText;
use live_course::MadeEntry;
use round_engine::Engine;
use round_journal::Outcome;
use std::alloc::Global;
use std::marker::Model;
use std::sync::Wait;
use std::thread::Threads;

/// An engine, the batches of the streams, how many of each were made, and the list of those.
/// Contracts see all of them.
#[derive(Drop)]
pub struct Works<'a> {
    streams: &'a [Items<BatchText>],
    engine: Engine,
    next: Vec<u64>,
    made: Vec<MadeEntry>,
}

impl<'a> Model for Works<'a> {
    ghost use Rattle.live_works.specs.Shop.{IsFit, Shop, coded_shop, shop};

    ghost Value = { Shop };

    ghost coded = { coded_shop };

    ghost view = { λ w. shop w.streams.now w.engine w.next.items w.made.items };

    ghost invariant = { λ w. IsFit w.streams.now w.engine w.next.items w.made.items };
}

/// What is left of the works: the engine, and the list of the batches that it made.
#[derive(Drop)]
pub struct Worked {
    pub engine: Engine,
    pub made: Vec<MadeEntry>,
}

// Adds an entry to the list.
fn add(made: &mut Vec<MadeEntry>, next: &mut Vec<u64>, entry: MadeEntry)
    requires room { length made.old.items + 1 ≤ vec_capacity made.old }
    requires stream { entry.stream < length next.old.items }
    ensures made { made.new.items ≡ made.old.items ++ entry ∷ [] }
    ensures next { next.new.items ≡ slice_set next.old.items entry.stream entry.number }
{
    made.push_reserved(entry);
    next[entry.stream as usize] = entry.number;
}

// Makes the next batch of a stream. The round of an accepted one is held.
fn make_next<R: Threads + Sync, T: Gate + Sync>(
    rt: &R,
    alloc: Global,
    gate: &T,
    streams: &[Items<BatchText>],
    engine: &mut Engine,
    next: &mut Vec<u64>,
    made: &mut Vec<MadeEntry>,
    publisher: &mut Publisher,
    stream: u32,
) -> Result<Outcome, Memory>
    requires fit { IsFit streams.now engine.old next.old.items made.old.items }
    requires standing { Standing publisher.old
        (shop streams.now engine.old next.old.items made.old.items) }
    requires stream { stream < length streams.now }
    requires left { slice_index_or next.old.items stream 0 < length (file_of streams.now stream) }
    ensures fit { IsFit streams.now engine.new next.new.items made.new.items }
    ensures ok { IfOk result (λ o. IsPending o publisher.new
        (shop streams.now engine.new next.new.items made.new.items)) }
    ensures err { OnErr result (Standing publisher.new
        (shop streams.now engine.new next.new.items made.new.items)) }
    ensures choice { engine.new.choice ≡ engine.old.choice }
    ensures origin { publisher.new.origin ≡ publisher.old.origin }
    ensures book { publisher.new.book ≡ publisher.old.book }
{
    made.reserve(1)?;
    let _count = count(streams, stream);
    let number = next[stream as usize];
    let batch = kept(streams, stream, number);
    let outcome = make_batch(rt, alloc, gate, engine, publisher, batch)?;
    let entry = MadeEntry {
        stream,
        number: number + 1,
        outcome,
    };
    add(made, next, entry);
    Ok(outcome)
}

impl<'a> Works<'a> {
    /// The works before the first batch.
    pub fn new(
        alloc: Global,
        streams: &'a [Items<BatchText>],
        engine: Engine,
    ) -> Result<Works<'a>, Memory>
        requires ready { IsUnderWay engine }
        requires sound { AreSound streams.now }
        requires new { engine.number ≡ 0 }
        requires few { length streams.now ≤ 16 }
        ensures { IfOk result (λ w. w
            ≡ new_shop streams.now engine (replicate (length streams.now) 0)) }
    {
        let next = vec![in alloc; 0u64; streams.len()]?;
        Ok(Works {
            streams,
            engine,
            next,
            made: Vec::new(alloc),
        })
    }

    /// Makes the next batch of a stream. The round of an accepted one is held.
    pub(crate) fn make<R: Threads + Sync, T: Gate + Sync>(
        &mut self,
        rt: &R,
        alloc: Global,
        gate: &T,
        publisher: &mut Publisher,
        stream: u32,
    ) -> Result<Outcome, Memory>
        requires standing { Standing publisher.old self.old }
        requires stream { stream < length self.old.files }
        requires left { HasNext self.old stream }
        ensures ok { IfOk result (λ o. IsPending o publisher.new self.new) }
        ensures err { OnErr result (Standing publisher.new self.new) }
        ensures files { self.new.files ≡ self.old.files }
        ensures choice { self.new.engine.choice ≡ self.old.engine.choice }
        ensures origin { publisher.new.origin ≡ publisher.old.origin }
        ensures book { publisher.new.book ≡ publisher.old.book }
    {
        make_next(
            rt,
            alloc,
            gate,
            self.streams,
            &mut self.engine,
            &mut self.next,
            &mut self.made,
            publisher,
            stream,
        )
    }

    // Whether a stream has a batch that wasn't made.
    fn has_next(&self, stream: u32) -> bool
        requires { stream < length self.now.files }
        ensures some { IsTrue result → HasNext self.now stream }
        ensures none { IsFalse result
            → length (file_of self.now.files stream) ≤ made_of self.now stream }
    {
        self.next[stream as usize] < count(self.streams, stream)
    }

    /// The first stream that has a batch that wasn't made.
    pub(crate) fn first_left(&self) -> Option<u32>
        ensures some { IfSome result (λ k. (k < length self.now.files) × HasNext self.now k) }
        ensures none { IfNone result ((k : ℕ) → k < length self.now.files
            → length (file_of self.now.files k) ≤ made_of self.now k) }
    {
        for k in 0..self.next.len() {
            let stream = k as u32;
            if self.has_next(stream) {
                return Some(stream);
            }
        }
        None
    }

    /// Whether this is the next batch of a stream.
    pub(crate) fn is_next(&self, stream: u32, batch: &BatchText) -> bool
        ensures { IsTrue result → (stream < length self.now.files) × HasNext self.now stream }
    {
        if stream as usize >= self.next.len() || !self.has_next(stream) {
            return false;
        }
        let number = self.next[stream as usize];
        same_batch(kept(self.streams, stream, number), batch)
    }

    /// What is left of the works.
    pub fn into_worked(self) -> Worked
        ensures engine { result.engine ≡ self.entry.engine }
        ensures made { result.made.items ≡ self.entry.made }
        ensures ready { IsUnderWay result.engine }
    {
        let Works {
            streams: _,
            engine,
            next: _,
            made,
        } = self;
        Worked { engine, made }
    }
}

/// Publishes the round of an accepted batch.
pub(crate) fn publish_made<R: Wait>(
    rt: &R,
    publisher: &mut Publisher,
    works: &Works<'_>,
    outcome: Outcome,
)
    requires pending { IsPending outcome publisher.old works.now }
    ensures standing { Standing publisher.new works.now }
    ensures origin { publisher.new.origin ≡ publisher.old.origin }
    ensures book { publisher.new.book ≡ publisher.old.book }
{
    match outcome {
        Outcome::Accepted { .. } => {
            let _receipt = publisher.publish(rt);
        }
        Outcome::Refused { .. } | Outcome::Memory => {}
    }
}
