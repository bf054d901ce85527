// Writes texts.
ghost use Rattle.std.specs.Prelude.{IfErr, OnOk};
ghost use Rattle.bolt_io.specs.Written.{Wrote, WrotePart};
ghost use Rattle.command_files.specs.Stops.{BlamesSink, IsOfWriting};

use crate::stop::Stop;
use bolt_io::{Sink, put_all};

/// Writes a text.
pub fn put<K: Sink>(out: &mut K, text: &[u8]) -> Result<(), Stop>
    ensures all { OnOk result (Wrote (K.written out.old) (K.written out.new) text.now) }
    ensures part { WrotePart (K.written out.old) (K.written out.new) text.now }
    ensures cause { BlamesSink result (K.faults out.old) (K.faults out.new) }
    ensures writing { IfErr result IsOfWriting }
{
    put_all(out, text)?;
    Ok(())
}
