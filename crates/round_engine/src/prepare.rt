// How a batch is prepared.
ghost use Rattle.std.specs.Prelude.{◌≡◌, ◌+◌, ◌<◌, ◌≤◌, ◌^◌, None, IsSome, IfErr, IfOk};
ghost use Rattle.std.specs.Prelude.{OnErr, OnOk, length};
ghost use Rattle.adjacency.specs.declared.change.TheConstants.{MOST_EDITS};
ghost use Rattle.round_engine.specs.Prepared.{IsPreparedBy};
ghost use Rattle.round_engine.specs.Preparing.{IsBatchRefusal, batch_visits, first_bad};
ghost use Rattle.round_engine.specs.Preparing.{most_visits, prepared_state};

use crate::engine::Engine;
use crate::parts::{Answered, Refined, refine_parts};
use crate::prepared::Prepared;
use adj_pages::PagedGraph;
use adjacency::EditRefusal;
use bolt_base::{Edit, EditList, Gate, LineCause, Memory, Meter};
use std::alloc::Global;
use std::marker::Brand;
use std::thread::Threads;

/// Why a batch isn't prepared.
#[derive(Clone, Copy, Debug, PartialEq, Eq)]
pub enum BatchRefusal {
    /// The first bad edit, counted from 0, and its cause.
    At { index: u32, cause: LineCause },
    /// Want of memory.
    Memory,
}

impl Engine {
    /// Makes a batch ready to be committed, and takes all memory that the commit needs. The rows
    /// and the answer are refined: edges are read where something changes, and nowhere else. Reads
    /// are of the old state until the commit. The engine is unchanged after either refusal.
    pub fn prepare<R: Threads + Sync, T: Gate + Sync, M: Meter + Send>(
        &mut self,
        rt: &R,
        alloc: Global,
        edits: &[Edit],
        gate: &T,
        meter: &mut M,
    ) -> Result<Prepared, BatchRefusal>
        requires idle { self.old.next ≡ None }
        requires few { length edits.now ≤ MOST_EDITS }
        requires held { 64 ≤ M.held meter.old }
        requires visits { M.counted meter.old + most_visits self.old edits.now < 2 ^ 64 }
        ensures state { OnOk result (self.new ≡ prepared_state self.old edits.now) }
        ensures edits { IfOk result (λ prepared. prepared.edits ≡ edits.now) }
        ensures prepared { IfOk result (IsPreparedBy self.new) }
        ensures fine { OnOk result (first_bad self.old edits.now ≡ None) }
        ensures refused { IfErr result (IsBatchRefusal self.old edits.now) }
        ensures unchanged { OnErr result (self.new ≡ self.old) }
        ensures exact { OnOk result
            (M.counted meter.new ≡ M.counted meter.old + batch_visits self.old edits.now) }
        ensures unread { IsSome (first_bad self.old edits.now)
            → M.counted meter.new ≡ M.counted meter.old }
        ensures most { M.counted meter.new
            ≤ M.counted meter.old + most_visits self.old edits.now }
        ensures held { M.held meter.new ≡ M.held meter.old }
    {
        let Ok(batch) = EditList::from_slice(alloc, edits) else {
            return Err(BatchRefusal::Memory);
        };
        let change = match self.graph.apply(alloc, edits) {
            Ok(change) => change,
            Err(EditRefusal::At { index, cause }) => {
                return Err(BatchRefusal::At { index, cause });
            }
            Err(EditRefusal::Memory) => return Err(BatchRefusal::Memory),
        };
        let _limits = self.graph.limits();
        let before = meter.count();
        let refined = refine_parts::<Brand, R, PagedGraph, T, M>(
            rt,
            alloc,
            &self.accepted,
            self.choice,
            &self.graph,
            &change,
            &mut self.history,
            &self.answer,
            &self.words,
            &mut self.seat,
            gate,
            meter,
        );
        match refined {
            Ok(Refined { overlay, last }) => {
                let Answered { answer, changes } = last;
                Ok(Prepared {
                    change,
                    overlay,
                    answer,
                    changes,
                    edits: batch,
                    visits: meter.count() - before,
                })
            }
            Err(Memory) => {
                self.graph.revert(change);
                Err(BatchRefusal::Memory)
            }
        }
    }
}
