// check PROGRAM
ghost use Rattle.std.specs.Prelude.{◌≡◌, ◌⊎◌, ◌<◌, ◌≤◌, ◌^◌, Ok, Err, IfErr, IfOk, IfSome, IsOk};
ghost use Rattle.batch_run.specs.Conducts.{Conducts, world};
ghost use Rattle.batch_steps.specs.Steps.{IsMade};
ghost use Rattle.cli_words.specs.Lines.{command_of};
ghost use Rattle.cli_words.specs.Words.{texts};
ghost use Rattle.cli_words.specs.declared.command.Command.TheVariants.{Check as CheckCommand};
ghost use Rattle.command_course.specs.Programs.{program_files};
ghost use Rattle.command_course.specs.Still.{check_course, course, files_before, named};
ghost use Rattle.command_course.specs.Still.{opened_with, program_count, IsDecided};
ghost use Rattle.command_files.specs.Files.{content};
ghost use Rattle.command_files.specs.Reads.{Reads};
ghost use Rattle.command_files.specs.Stops.{BlamesShelf, IsOfReading};
ghost use Rattle.reply_commands.specs.Checked.{checked};

use batch_run::put_reply;
use batch_steps::Reply;
use bolt_base::Memory;
use bolt_io::{Shelf, Sink};
use cli_words::ProgramWord;
use command_files::Stop;
use command_opening::read_program;
use range_check::Accepted;
use report_text::check_text;
use std::alloc::Global;

// What is said of an accepted program, or the reply that refuses it.
fn reply_of(alloc: Global, read: Result<Accepted, Reply>) -> Result<Reply, Memory>
    requires refused { IfErr read (λ reply. reply.status ≡ 3) }
    ensures reply { IfOk result (λ reply. checked read ≡ Err reply) }
    ensures status { IfOk result (λ reply. (reply.status ≡ 0) ⊎ (reply.status ≡ 3)) }
    ensures made { IfOk result (λ reply. IsMade reply.status → IsOk read) }
{
    match read {
        Ok(accepted) => Ok(Reply {
            text: check_text(alloc, &accepted)?,
            status: 0,
        }),
        Err(refusal) => Ok(refusal),
    }
}

// Reads and judges the program, and tells the reply to it.
fn read_reply<S: Shelf>(
    alloc: Global,
    words: &[String],
    program: ProgramWord,
    shelf: &mut S,
) -> Result<Reply, Stop>
    requires room { S.opened shelf.old < 2 ^ 30 }
    requires place { 1 ≤ program.at }
    ensures course { IfOk result (λ reply. IfSome (S.told shelf.old)
        (λ t. check_course (texts words.now) program (content t) ≡ Err reply)) }
    ensures status { IfOk result (λ reply. (reply.status ≡ 0) ⊎ (reply.status ≡ 3)) }
    ensures reads { Reads (program_files (texts words.now) program)
        (λ reply. IsMade reply.status) (program_count program) (λ _. program_count program)
        (S.told shelf.old) (S.told shelf.new) (S.opened shelf.old) (S.opened shelf.new) result }
    ensures cause { BlamesShelf result (S.faults shelf.old) (S.faults shelf.new) }
    ensures reading { IfErr result IsOfReading }
{
    let read = read_program(alloc, shelf, words, program)?;
    Ok(reply_of(alloc, read)?)
}

/// Reads and judges a program, and writes its lines and the intervals of its parts, or what
/// refuses it. Answers the status, which is 0, or 3 where the program is refused.
pub fn check_command<S: Shelf, K: Sink>(
    alloc: Global,
    words: &[String],
    program: ProgramWord,
    shelf: &mut S,
    out: &mut K,
) -> Result<u8, Stop>
    requires room { S.opened shelf.old < 2 ^ 30 }
    requires place { 1 ≤ program.at }
    requires command { command_of (texts words.now) ≡ Ok (CheckCommand program) }
    ensures conducts { Conducts (course (texts words.now)) (files_before (texts words.now))
        (named (texts words.now)) (opened_with (texts words.now))
        (world S.told S.opened S.faults K.written K.faults shelf.old out.old)
        (world S.told S.opened S.faults K.written K.faults shelf.new out.new) result }
    ensures decided { IfOk result (IsDecided (texts words.now)) }
{
    let reply = read_reply(alloc, words, program, shelf)?;
    put_reply(&reply, out)
}
