// A sink in memory whose calls can fail.
ghost use Rattle.std.specs.Prelude.{◌≡◌, ◌<◌, ◌≤◌, ◌↔◌, [], ◌∷◌, ◌++◌, length, take, IsTrue, OnOk};
ghost use Rattle.std.specs.Prelude.{OnErr, IfOk, IsErrOf};
ghost use Rattle.bolt_io.specs.Fakes.{with_text, write_length, next_fails, with_call};
ghost use Rattle.bolt_io.specs.Fakes.{with_failed_call};

use crate::calm_sink::CalmSink;
use crate::fault::SinkFault;
use crate::plan::FaultPlan;
use crate::sink::Sink;
use bolt_base::Memory;
use std::alloc::Global;
use std::marker::Model;

/// Keeps in memory what was written, with a list of the writes that are to fail, numbered from 1.
#[derive(Drop)]
pub struct MemSink {
    sink: CalmSink,
    plan: FaultPlan,
}

impl Model for MemSink {
    ghost use Rattle.bolt_io.specs.Fakes.{FailingSink};

    ghost Value = { FailingSink };

    ghost view = { λ s. record { sink = s.sink; plan = s.plan } };
}

impl MemSink {
    /// Nothing was written, a write takes `piece` bytes at most, and no call is to fail.
    pub fn new(alloc: Global, piece: usize) -> Self
        requires { 1 ≤ piece }
        ensures { result
            ≡ record {
              sink = record { bytes = []; piece = piece };
              plan = record { fails = []; calls = 0; faults = 0 };
            } }
    {
        MemSink {
            sink: CalmSink::new(alloc, piece),
            plan: FaultPlan::new(alloc),
        }
    }

    /// Adds a call that is to fail. The sink is unchanged after `Memory`.
    pub fn fail_at(&mut self, call: u64) -> Result<(), Memory>
        ensures ok { OnOk result (self.new ≡ record self.old
            { plan = record self.old.plan { fails = self.old.plan.fails ++ call ∷ [] } }) }
        ensures err { OnErr result (self.new ≡ self.old) }
    {
        self.plan.fail_at(call)
    }

    /// What was written.
    pub fn written(&self) -> &[u8]
        ensures { result.now ≡ self.now.sink.bytes }
    {
        self.sink.written()
    }
}

impl Sink for MemSink {
    ghost use Rattle.std.specs.Prelude.{Some};
    ghost use Rattle.bolt_io.specs.Faults.{count_of, count_of-fits};

    ghost faults = { λ s. count_of s.plan.faults };

    ghost written = { λ s. Some s.sink.bytes };

    ghost faults_fit = { λ s. count_of-fits s.plan.faults };

    fn write(&mut self, piece: &[u8]) -> Result<usize, SinkFault>
        requires { 0 < length piece.now }
        ensures fails { IsErrOf result SinkFault.Failed ↔ IsTrue (next_fails self.old.plan) }
        ensures failed { IsErrOf result SinkFault.Failed
            → self.new ≡ record self.old { plan = with_failed_call self.old.plan } }
        ensures memory { IsErrOf result SinkFault.Memory
            → self.new ≡ record self.old { plan = with_call self.old.plan } }
        ensures some { IfOk result (λ n. 1 ≤ n) }
        ensures longest { IfOk result (λ n. n ≡ write_length self.old.sink piece.now) }
        ensures wrote { IfOk result (λ n. self.new ≡ record {
          sink = with_text (take n piece.now) self.old.sink;
          plan = with_call self.old.plan;
        }) }
    {
        if self.plan.next_call() {
            self.plan.add_fault();
            return Err(SinkFault::Failed);
        }
        self.sink.write(piece)
    }
}
