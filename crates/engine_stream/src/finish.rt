// From what the opening of a command left to its status.
ghost use Rattle.std.specs.Prelude.{◌<◌, ◌^◌, [], IfOk};
ghost use Rattle.batch_steps.specs.Steps.{stream_slots};
ghost use Rattle.batch_run.specs.Conducts.{Conducts, world};
ghost use Rattle.batch_run.specs.Opened.{course, IsReady, EndsWith};
ghost use Rattle.report_text.specs.Runs.{Run, run_steps};
ghost use Rattle.engine_stream.specs.Taken.{taken};

use crate::stream::run_stream;
use batch_run::{Opened, put_reply};
use bolt_base::Gate;
use bolt_io::{Shelf, Sink};
use command_files::Stop;
use engine_runs::Progress;
use std::alloc::Global;
use std::thread::Threads;

/// Writes the refusal, or the opening text and then what the run answers to the batches of a
/// stream.
pub fn finish_opened<S: Shelf, K: Sink, R: Threads + Sync, T: Gate + Sync>(
    rt: &R,
    alloc: Global,
    gate: &T,
    opened: Opened<Progress>,
    stream: &str,
    shelf: &mut S,
    out: &mut K,
) -> Result<u8, Stop>
    requires room { S.opened shelf.old < 2 ^ 31 }
    requires ready { IsReady taken opened }
    ensures conducts { Conducts (λ _. course (λ (r : Run). r) run_steps stream.now opened)
        (λ _. []) 1 stream_slots
        (world S.told S.opened S.faults K.written K.faults shelf.old out.old)
        (world S.told S.opened S.faults K.written K.faults shelf.new out.new) result }
    ensures status { IfOk result (EndsWith opened) }
{
    match opened {
        Opened::Refused(refusal) => put_reply(&refusal, out),
        Opened::Runs { text, run } => {
            run_stream(rt, alloc, gate, text.as_slice(), stream, run, shelf, out)
        }
    }
}
