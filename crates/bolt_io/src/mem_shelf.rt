// A shelf in memory whose calls can fail.
ghost use Rattle.std.specs.Prelude.{◌≡◌, ◌<◌, ◌≤◌, ◌^◌, ◌↔◌, [], ◌∷◌, ◌++◌, length, IsTrue, IsErr};
ghost use Rattle.std.specs.Prelude.{OnOk, OnErr, IfOk, IsErrOf};
ghost use Rattle.bolt_io.specs.Told.{left, GivesNext};
ghost use Rattle.bolt_io.specs.Fakes.{with_file, with_slot, with_taken, read_length, next_fails};
ghost use Rattle.bolt_io.specs.Fakes.{open_fails, with_call, with_failed_call};

use crate::calm_shelf::CalmShelf;
use crate::fault::{OpenFault, ShelfFault};
use crate::plan::FaultPlan;
use crate::shelf::Shelf;
use bolt_base::Memory;
use std::alloc::Global;
use std::marker::Model;

/// Files in memory, and a list of the calls that are to fail: opens and reads are numbered
/// together, from 1. To open an absent name is a fault.
#[derive(Drop)]
pub struct MemShelf {
    shelf: CalmShelf,
    plan: FaultPlan,
}

impl Model for MemShelf {
    ghost use Rattle.bolt_io.specs.Fakes.{FailingShelf};

    ghost Value = { FailingShelf };

    ghost view = { λ s. record { shelf = s.shelf; plan = s.plan } };
}

impl MemShelf {
    /// No files, reads that take `piece` bytes at most, and no call that is to fail.
    pub fn new(alloc: Global, piece: usize) -> Self
        requires { 1 ≤ piece }
        ensures { result
            ≡ record {
              shelf = record { told = record { files = []; slots = [] }; piece = piece };
              plan = record { fails = []; calls = 0; faults = 0 };
            } }
    {
        MemShelf {
            shelf: CalmShelf::new(alloc, piece),
            plan: FaultPlan::new(alloc),
        }
    }

    /// Gives a name these bytes. The shelf is unchanged after `Memory`.
    pub fn put_file(&mut self, name: &str, bytes: &[u8]) -> Result<(), Memory>
        requires { self.old.shelf.told.slots ≡ [] }
        ensures ok { OnOk result (self.new
            ≡ record self.old { shelf = with_file name.now bytes.now self.old.shelf }) }
        ensures err { OnErr result (self.new ≡ self.old) }
    {
        self.shelf.put_file(name, bytes)
    }

    /// Adds a call that is to fail. The shelf is unchanged after `Memory`.
    pub fn fail_at(&mut self, call: u64) -> Result<(), Memory>
        ensures ok { OnOk result (self.new ≡ record self.old
            { plan = record self.old.plan { fails = self.old.plan.fails ++ call ∷ [] } }) }
        ensures err { OnErr result (self.new ≡ self.old) }
    {
        self.plan.fail_at(call)
    }
}

impl Shelf for MemShelf {
    ghost use Rattle.std.specs.Prelude.{Some, length, refl};
    ghost use Rattle.bolt_io.specs.Faults.{count_of, count_of-fits};

    ghost faults = { λ s. count_of s.plan.faults };

    ghost opened = { λ s. length s.shelf.told.slots };

    ghost told = { λ s. Some s.shelf.told };

    ghost tells_slots = { λ s. refl };

    ghost faults_fit = { λ s. count_of-fits s.plan.faults };

    fn open(&mut self, name: &str) -> Result<u32, OpenFault>
        requires { length self.old.shelf.told.slots < 2 ^ 31 }
        ensures fails { IsErrOf result OpenFault.Failed ↔ IsTrue (open_fails self.old name.now) }
        ensures failed { IsErrOf result OpenFault.Failed
            → self.new ≡ record self.old { plan = with_failed_call self.old.plan } }
        ensures memory { IsErrOf result OpenFault.Memory
            → self.new ≡ record self.old { plan = with_call self.old.plan } }
        ensures slot { IfOk result (λ slot. slot ≡ length self.old.shelf.told.slots) }
        ensures ok { OnOk result (self.new ≡ record {
          shelf = with_slot name.now self.old.shelf;
          plan = with_call self.old.plan;
        }) }
    {
        if self.plan.next_call() || !self.shelf.has(name) {
            self.plan.add_fault();
            return Err(OpenFault::Failed);
        }
        self.shelf.open(name)
    }

    fn read(&mut self, slot: u32, buf: &mut [u8]) -> Result<usize, ShelfFault>
        requires slot { slot < length self.old.shelf.told.slots }
        requires room { 0 < length buf.old }
        ensures fails { IsErr result ↔ IsTrue (next_fails self.old.plan) }
        ensures failed { OnErr result
            (self.new ≡ record self.old { plan = with_failed_call self.old.plan }) }
        ensures longest { IfOk result (λ n. n ≡ read_length self.old.shelf slot (length buf.old)) }
        ensures bytes { IfOk result (λ n. GivesNext (left self.old.shelf.told slot) n buf.new) }
        ensures taken { IfOk result (λ n. self.new ≡ record {
          shelf = with_taken slot n self.old.shelf;
          plan = with_call self.old.plan;
        }) }
    {
        if self.plan.next_call() {
            self.plan.add_fault();
            return Err(ShelfFault::Failed);
        }
        self.shelf.read(slot, buf)
    }
}
