// A sink that bytes are written to.
ghost use Rattle.std.specs.Prelude.{◌≡◌, ℕ, ◌<◌, ◌≤◌, ◌^◌, List, length, take, Option, IfOk, OnOk};
ghost use Rattle.std.specs.Prelude.{OnErr, IsErrOf};
ghost use Rattle.bolt_io.specs.Faults.{Rose};
ghost use Rattle.bolt_io.specs.Written.{Wrote, WrotePart};

use crate::fault::SinkFault;

/// Takes bytes in order. A sink may tell what was written.
pub trait Sink {
    /// How often the sink has failed, as far as a `u64` counts.
    ghost faults: { Self → ℕ };

    /// What was written, where the sink tells it.
    ghost written: { Self → Option (List ℕ) };

    /// Appends the first bytes of `piece`, one at least, and answers how many.
    fn write(&mut self, piece: &[u8]) -> Result<usize, SinkFault>
        requires { 0 < length piece.now }
        ensures some { IfOk result (λ n. 1 ≤ n) }
        ensures within { IfOk result (λ n. n ≤ length piece.now) }
        ensures wrote { IfOk result (λ n. Wrote (written self.old) (written self.new)
            (take n piece.now)) }
        ensures untouched { OnErr result (written self.new ≡ written self.old) }
        ensures failed { IsErrOf result SinkFault.Failed
            → Rose (faults self.old) (faults self.new) }
        ensures memory { IsErrOf result SinkFault.Memory → faults self.new ≡ faults self.old }
        ensures calm { OnOk result (faults self.new ≡ faults self.old) }
        ensures later { faults self.old ≤ faults self.new };

    /// The count is a `u64`.
    ghost faults_fit: { (s : Self) → faults s < 2 ^ 64 };
}

/// Writes all the bytes, in as many pieces as the sink takes.
pub fn put_all<K: Sink>(sink: &mut K, bytes: &[u8]) -> Result<(), SinkFault>
    ensures all { OnOk result (Wrote (K.written sink.old) (K.written sink.new) bytes.now) }
    ensures part { WrotePart (K.written sink.old) (K.written sink.new) bytes.now }
    ensures failed { IsErrOf result SinkFault.Failed
        → Rose (K.faults sink.old) (K.faults sink.new) }
    ensures memory { IsErrOf result SinkFault.Memory → K.faults sink.new ≡ K.faults sink.old }
    ensures calm { OnOk result (K.faults sink.new ≡ K.faults sink.old) }
    ensures later { K.faults sink.old ≤ K.faults sink.new }
{
    let mut at = 0;
    while at < bytes.len() {
        at += sink.write(&bytes[at..])?;
    }
    Ok(())
}
