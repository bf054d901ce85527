// The program that a word names.
ghost use Rattle.std.specs.Prelude.{◌≡◌, ◌<◌, ◌≤◌, ◌^◌, Err, IfErr, IfOk, IfSome, IsOk};
ghost use Rattle.cli_words.specs.Words.{texts};
ghost use Rattle.command_files.specs.Files.{content};
ghost use Rattle.command_files.specs.Reads.{Reads};
ghost use Rattle.command_files.specs.Stops.{BlamesShelf, IsOfReading};
ghost use Rattle.program_files.specs.Judged.{judged};
ghost use Rattle.command_course.specs.Programs.{accepted_program, or_refused, program_files};
ghost use Rattle.command_course.specs.Programs.{file_name as file_name_of, program_text};
ghost use Rattle.command_course.specs.Programs.{shipped_text as shipped_text_of};
ghost use Rattle.command_course.specs.Programs.{program_refused as program_refused_of};
ghost use Rattle.command_course.specs.Still.{program_count};

use crate::words::word_at;
use batch_steps::Reply;
use bolt_base::Memory;
use bolt_io::Shelf;
use bolt_ship::shipped;
use cli_words::ProgramWord;
use command_files::Stop;
use program_files::{ProgramRefusal, judge, load_program};
use range_check::Accepted;
use report_text::{range_refused, text_refused};
use std::alloc::Global;

// The name of a program's file.
fn file_name(words: &[String], program: ProgramWord) -> &str
    requires place { 1 ≤ program.at }
    ensures { result.now ≡ file_name_of (texts words.now) program }
{
    match word_at(words, program.at).strip_prefix("file:") {
        Some(name) => name,
        None => "",
    }
}

// The text of a shipped program.
fn shipped_text(words: &[String], program: ProgramWord) -> &'static [u8]
    requires place { 1 ≤ program.at }
    ensures { result.now ≡ shipped_text_of (texts words.now) program }
{
    match shipped(word_at(words, program.at)) {
        Some(text) => text,
        None => b"",
    }
}

// Reads the program's file, if it has one, and judges its text.
fn judge_program<S: Shelf>(
    alloc: Global,
    shelf: &mut S,
    words: &[String],
    program: ProgramWord,
) -> Result<Result<Accepted, ProgramRefusal>, Stop>
    requires room { S.opened shelf.old < 2 ^ 31 }
    requires place { 1 ≤ program.at }
    ensures judged { IfOk result (λ r. IfSome (S.told shelf.old)
        (λ t. judged (program_text (texts words.now) program (content t)) ≡ r)) }
    ensures reads { Reads (program_files (texts words.now) program) IsOk (program_count program)
        (λ _. program_count program) (S.told shelf.old) (S.told shelf.new)
        (S.opened shelf.old) (S.opened shelf.new) result }
    ensures cause { BlamesShelf result (S.faults shelf.old) (S.faults shelf.new) }
    ensures reading { IfErr result IsOfReading }
{
    if program.file {
        load_program(alloc, shelf, file_name(words, program))
    } else {
        Ok(judge(alloc, shipped_text(words, program))?)
    }
}

// The reply that refuses a program.
fn program_refused(alloc: Global, refusal: ProgramRefusal) -> Result<Reply, Memory>
    ensures reply { IfOk result (λ reply. reply ≡ program_refused_of refusal) }
    ensures status { IfOk result (λ reply. reply.status ≡ 3) }
{
    match refusal {
        ProgramRefusal::Text(error) => Ok(Reply {
            text: text_refused(alloc, error)?,
            status: 3,
        }),
        ProgramRefusal::Range(refusal) => Ok(Reply {
            text: range_refused(alloc, refusal)?,
            status: 3,
        }),
    }
}

/// The accepted program, or the reply that refuses it.
pub fn program_or_reply(
    alloc: Global,
    judged: Result<Accepted, ProgramRefusal>,
) -> Result<Result<Accepted, Reply>, Memory>
    ensures reply { IfOk result (λ r. r ≡ or_refused judged) }
    ensures status { IfOk result (λ r. IfErr r (λ reply. reply.status ≡ 3)) }
{
    match judged {
        Ok(accepted) => Ok(Ok(accepted)),
        Err(refusal) => Ok(Err(program_refused(alloc, refusal)?)),
    }
}

/// Reads and judges the program that a word names, or tells the reply that refuses it.
#[tactic(auto, unfolding(command_course::specs::Programs::accepted_program))]
pub fn read_program<S: Shelf>(
    alloc: Global,
    shelf: &mut S,
    words: &[String],
    program: ProgramWord,
) -> Result<Result<Accepted, Reply>, Stop>
    requires room { S.opened shelf.old < 2 ^ 31 }
    requires place { 1 ≤ program.at }
    ensures program { IfOk result (λ r. IfSome (S.told shelf.old)
        (λ t. accepted_program (texts words.now) program (content t) ≡ r)) }
    ensures status { IfOk result (λ r. IfErr r (λ reply. reply.status ≡ 3)) }
    ensures reads { Reads (program_files (texts words.now) program) IsOk (program_count program)
        (λ _. program_count program) (S.told shelf.old) (S.told shelf.new)
        (S.opened shelf.old) (S.opened shelf.new) result }
    ensures cause { BlamesShelf result (S.faults shelf.old) (S.faults shelf.new) }
    ensures reading { IfErr result IsOfReading }
{
    let judged = judge_program(alloc, shelf, words, program)?;
    Ok(program_or_reply(alloc, judged)?)
}
