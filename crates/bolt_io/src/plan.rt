// The calls of a shelf or a sink that are to fail.
ghost use Rattle.std.specs.Prelude.{◌≡◌, [], ◌∷◌, ◌++◌, OnOk, OnErr};
ghost use Rattle.bolt_io.specs.Fakes.{next_fails, with_call};
ghost use Rattle.bolt_io.specs.Faults.{one_more};

use bolt_base::{Items, Memory};
use std::alloc::Global;

/// The numbers of the calls that are to fail, counted from 1, and how many calls were made and
/// failed. Both counts stay at the greatest `u64` once they are there.
#[derive(Debug, Drop)]
pub struct FaultPlan {
    pub fails: Items<u64>,
    pub calls: u64,
    pub faults: u64,
}

impl FaultPlan {
    /// No call was made, and none is to fail.
    pub fn new(alloc: Global) -> Self
        ensures { result ≡ record { fails = []; calls = 0; faults = 0 } }
    {
        FaultPlan {
            fails: Items::new(alloc),
            calls: 0,
            faults: 0,
        }
    }

    /// Adds a call that is to fail.
    pub fn fail_at(&mut self, call: u64) -> Result<(), Memory>
        ensures ok { OnOk result (self.new
            ≡ record self.old { fails = self.old.fails ++ call ∷ [] }) }
        ensures err { OnErr result (self.new ≡ self.old) }
    {
        self.fails.push(call)
    }

    /// Counts a call, and answers whether it is listed to fail.
    pub fn next_call(&mut self) -> bool
        ensures listed { result ≡ next_fails self.old }
        ensures counted { self.new ≡ with_call self.old }
    {
        self.calls = self.calls.saturating_add(1);
        self.fails.as_slice().contains(&self.calls)
    }

    /// Counts a fault.
    pub fn add_fault(&mut self)
        ensures { self.new ≡ record self.old { faults = one_more self.old.faults } }
    {
        self.faults = self.faults.saturating_add(1);
    }
}
