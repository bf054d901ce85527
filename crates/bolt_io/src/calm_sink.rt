// A sink in memory that never fails.
ghost use Rattle.std.specs.Prelude.{◌≡◌, ◌<◌, ◌≤◌, [], length, take, OnErr, IfOk, IsOkUnless};
ghost use Rattle.bolt_io.specs.Fakes.{with_text, write_length};

use crate::fault::SinkFault;
use crate::sink::Sink;
use std::alloc::Global;
use std::marker::Model;

/// Keeps in memory what was written, without faults.
#[derive(Drop)]
pub struct CalmSink {
    bytes: Vec<u8>,
    piece: usize,
}

impl Model for CalmSink {
    ghost use Rattle.std.specs.Prelude.{◌≤◌};
    ghost use Rattle.bolt_io.specs.Fakes.{SinkState};

    ghost Value = { SinkState };

    ghost view = { λ s. record { bytes = s.bytes.items; piece = s.piece } };

    ghost invariant = { λ s. 1 ≤ s.piece };
}

impl CalmSink {
    /// Nothing was written, and a write takes `piece` bytes at most.
    pub fn new(alloc: Global, piece: usize) -> Self
        requires { 1 ≤ piece }
        ensures { result ≡ record { bytes = []; piece = piece } }
    {
        CalmSink {
            bytes: Vec::new(alloc),
            piece,
        }
    }

    /// What was written.
    pub fn written(&self) -> &[u8]
        ensures { result.now ≡ self.now.bytes }
    {
        self.bytes.as_slice()
    }
}

impl Sink for CalmSink {
    ghost use Rattle.std.specs.Prelude.{Some};
    ghost use Rattle.bolt_io.specs.Faults.{none_fits};

    ghost faults = { λ s. 0 };

    ghost written = { λ s. Some s.bytes };

    ghost faults_fit = { λ s. none_fits };

    fn write(&mut self, piece: &[u8]) -> Result<usize, SinkFault>
        requires { 0 < length piece.now }
        ensures calm { IsOkUnless result SinkFault.Memory }
        ensures some { IfOk result (λ n. 1 ≤ n) }
        ensures longest { IfOk result (λ n. n ≡ write_length self.old piece.now) }
        ensures wrote { IfOk result (λ n. self.new ≡ with_text (take n piece.now) self.old) }
        ensures err { OnErr result (self.new ≡ self.old) }
    {
        let n = piece.len().min(self.piece);
        match self.bytes.extend_from_slice(&piece[..n]) {
            Ok(()) => Ok(n),
            Err(_) => Err(SinkFault::Memory),
        }
    }
}
