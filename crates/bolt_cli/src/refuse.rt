// The refusal of words.
ghost use Rattle.std.specs.Prelude.{◌≡◌, IfErr, IfOk};
ghost use Rattle.command_course.specs.Still.{words_reply};
ghost use Rattle.command_files.specs.Replied.{Gives};
ghost use Rattle.command_files.specs.Stops.{BlamesSink, IsOfWriting};

use batch_run::put_reply;
use batch_steps::Reply;
use bolt_io::Sink;
use cli_words::WordsRefusal;
use command_files::Stop;
use report_text::words_refused;
use std::alloc::Global;

/// Refuses the word at a place.
pub(crate) fn refuse_words<K: Sink>(
    alloc: Global,
    refusal: WordsRefusal,
    out: &mut K,
) -> Result<u8, Stop>
    ensures gives { Gives (words_reply refusal) (K.written out.old) (K.written out.new) result }
    ensures status { IfOk result (λ s. s ≡ 2) }
    ensures cause { BlamesSink result (K.faults out.old) (K.faults out.new) }
    ensures writing { IfErr result IsOfWriting }
{
    let text = words_refused(alloc, refusal.at)?;
    put_reply(&Reply { text, status: 2 }, out)
}
