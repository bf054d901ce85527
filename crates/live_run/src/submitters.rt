// The threads that enter the batches of streams.
ghost use Rattle.std.specs.Prelude.{◌≡◌, ◌<◌, ◌≤◌, IfOk, length, vec_capacity, vec_len};
ghost use Rattle.round_journal.specs.declared.journal.TheConstants.{MOST_ORIGINS};

use bolt_base::{Gate, Items, Memory};
use graph_text::BatchText;
use live_works::{Entrant, submit};
use round_journal::{Door, MOST_ORIGINS};
use std::alloc::Global;
use std::sync::Wait;
use std::thread::{JoinHandle, Scope, Threads};

/// The threads that enter batches, and the streams for which none was started.
#[derive(Drop)]
pub(crate) struct Submitters<'a> {
    pub(crate) started: Vec<JoinHandle<Result<(), Memory>>>,
    pub(crate) entrants: Vec<Entrant<'a>>,
}

impl<'a> Submitters<'a> {
    /// None, with room for as many as there are streams.
    pub(crate) fn new(alloc: Global, streams: usize) -> Result<Submitters<'a>, Memory>
        ensures { IfOk result (λ s. (vec_len s.started ≡ 0) × (vec_len s.entrants ≡ 0)
            × (streams ≤ vec_capacity s.started) × (streams ≤ vec_capacity s.entrants)) }
    {
        let started = Vec::with_capacity(alloc, streams)?;
        let entrants = Vec::with_capacity(alloc, streams)?;
        Ok(Submitters { started, entrants })
    }
}

/// Starts a thread for each stream, with an origin of the same number.
pub(crate) fn start_submitters<'s, E, R: Threads + Wait + Sync, T: Gate + Sync>(
    scope: &Scope<'s, E>,
    rt: &'s R,
    alloc: Global,
    gate: &'s T,
    door: &'s Door,
    streams: &'s [Items<BatchText>],
    submitters: Submitters<'s>,
) -> Submitters<'s>
    requires few { length streams.now ≤ MOST_ORIGINS }
    requires none { (vec_len submitters.started ≡ 0) × (vec_len submitters.entrants ≡ 0) }
    requires room { (length streams.now ≤ vec_capacity submitters.started)
        × (length streams.now ≤ vec_capacity submitters.entrants) }
{
    let Submitters {
        mut started,
        mut entrants,
    } = submitters;
    for (number, stream) in streams.iter().enumerate() {
        let origin = number as u32;
        let batches = stream.as_slice();
        let thread = scope.spawn(
            move || -> Result<(), Memory>
                requires { origin < MOST_ORIGINS }
            { submit(rt, alloc, gate, door, origin, batches) },
        );
        match thread {
            Ok(child) => started.push_reserved(child),
            Err(_refused) => entrants.push_reserved(Entrant::new(origin, batches)),
        }
    }
    Submitters { started, entrants }
}

/// Waits for the threads, and tells whether all of them had memory.
pub(crate) fn join_submitters<R: Threads>(
    rt: &R,
    started: Vec<JoinHandle<Result<(), Memory>>>,
) -> Result<(), Memory> {
    let mut all = Ok(());
    for child in started {
        let entered = child.join(rt);
        if entered.is_err() {
            all = entered;
        }
    }
    all
}
