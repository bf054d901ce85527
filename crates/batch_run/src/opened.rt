// From the opening of a command to its status.
ghost use Rattle.std.specs.Prelude.{◌≡◌, IfOk, IfErr};
ghost use Rattle.command_files.specs.Replied.{Gives};
ghost use Rattle.command_files.specs.Stops.{BlamesSink, IsOfWriting};

use batch_steps::Reply;
use bolt_base::Bytes;
use bolt_io::Sink;
use command_files::{Stop, put};

/// What the opening of a command left: a refusal, or a text and the run that comes then.
#[derive(Drop)]
pub enum Opened<B> {
    Refused(Reply),
    Runs { text: Bytes, run: B },
}

/// Writes a reply, and answers its status.
pub fn put_reply<K: Sink>(reply: &Reply, out: &mut K) -> Result<u8, Stop>
    ensures gives { Gives reply.now (K.written out.old) (K.written out.new) result }
    ensures status { IfOk result (λ s. s ≡ reply.now.status) }
    ensures cause { BlamesSink result (K.faults out.old) (K.faults out.new) }
    ensures writing { IfErr result IsOfWriting }
{
    put(out, reply.text.as_slice())?;
    Ok(reply.status)
}
