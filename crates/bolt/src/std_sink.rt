// Standard output.
use bolt_io::{Sink, SinkFault};
use std::io;
use std::io::{ErrorKind, Write};

/// A writer, as standard output, that counts its faults. It tells nothing of what was written.
#[derive(Drop)]
pub struct StdSink<W: Write> {
    out: W,
    faults: u64,
}

impl<W: Write> StdSink<W> {
    ghost use Rattle.std.specs.Prelude.{◌≡◌, ◌≢◌, ◌<◌, Ok, Err, IfOk, IfErr};
    ghost use Rattle.std.specs.IoError.{error_kind};
    ghost use Rattle.bolt_io.specs.Faults.{one_more};

    /// Nothing has failed yet.
    pub fn new(out: W) -> Self
        ensures { result.faults ≡ 0 }
    {
        StdSink { out, faults: 0 }
    }

    // How many bytes were written, or why none was: want of memory, which isn't counted, or a
    // failure, which is; a device that takes nothing has failed.
    fn judge(&mut self, written: io::Result<usize>) -> Result<usize, SinkFault>
        ensures some { IfOk written (λ n. 0 < n → result ≡ Ok n) }
        ensures nothing { IfOk written (λ n. n ≡ 0 → result ≡ Err SinkFault.Failed) }
        ensures memory { IfErr written (λ e. error_kind e ≡ ErrorKind.OutOfMemory
            → result ≡ Err SinkFault.Memory) }
        ensures failed { IfErr written (λ e. error_kind e ≢ ErrorKind.OutOfMemory
            → result ≡ Err SinkFault.Failed) }
        ensures counted { result ≡ Err SinkFault.Failed
            → self.new.faults ≡ one_more self.old.faults }
        ensures calm { result ≢ Err SinkFault.Failed → self.new.faults ≡ self.old.faults }
        ensures out { self.new.out ≡ self.old.out }
    {
        match written {
            Ok(n) if n > 0 => Ok(n),
            Err(error) if error.kind() == ErrorKind::OutOfMemory => Err(SinkFault::Memory),
            _ => {
                self.faults = self.faults.saturating_add(1);
                Err(SinkFault::Failed)
            }
        }
    }
}

impl<W: Write> Sink for StdSink<W> {
    ghost use Rattle.std.specs.Prelude.{◌≡◌, ◌<◌, ◌≤◌, None, length, IfOk, OnOk, IsErrOf};
    ghost use Rattle.std.specs.Io.KnownBytes.{WriteAppends};
    ghost use Rattle.bolt_io.specs.Faults.{count_of, count_of-fits, Rose};

    ghost faults = { λ s. count_of s.faults };

    ghost written = { λ s. None };

    ghost faults_fit = { λ s. count_of-fits s.faults };

    // Where the writer tells its bytes, those that were answered were appended to them, and a fault
    // appends none.
    fn write(&mut self, piece: &[u8]) -> Result<usize, SinkFault>
        requires { 0 < length piece.now }
        ensures some { IfOk result (λ n. 1 ≤ n) }
        ensures within { IfOk result (λ n. n ≤ length piece.now) }
        ensures appends { WriteAppends (W.contents self.old.out) (W.contents self.new.out)
            result piece.now }
        ensures failed { IsErrOf result SinkFault.Failed
            → Rose (count_of self.old.faults) (count_of self.new.faults) }
        ensures memory { IsErrOf result SinkFault.Memory
            → count_of self.new.faults ≡ count_of self.old.faults }
        ensures calm { OnOk result (count_of self.new.faults ≡ count_of self.old.faults) }
        ensures later { count_of self.old.faults ≤ count_of self.new.faults }
    {
        let written = self.out.write(piece);
        Ok(self.judge(written)?)
    }
}
