// Reads files of questions.
ghost use Rattle.std.specs.Prelude.{◌≡◌, ◌+◌, ◌<◌, ◌≤◌, ◌^◌, ◌∷◌, [], length, map};
ghost use Rattle.std.specs.Prelude.{IfErr, IfOk, IfSome, ⊤};
ghost use Rattle.std.specs.List.{All};
ghost use Rattle.text_lines.specs.Feed.{readable};
ghost use Rattle.batch_steps.specs.Files.{stream_file};
ghost use Rattle.command_files.specs.Files.{content};
ghost use Rattle.command_files.specs.Reads.{Reads};
ghost use Rattle.command_files.specs.Stops.{BlamesShelf, IsOfReading};
ghost use Rattle.live_text.specs.Questions.{AreWithin, questions};
ghost use Rattle.live_streams.specs.Ends.{ReadsToEnd};
ghost use Rattle.live_streams.specs.Texts.{questions_of, whole_files};

use bolt_base::Items;
use bolt_io::Shelf;
use command_files::{Stop, open};
use live_text::{QuestionList, read_questions};
use std::alloc::Global;

/// The questions of each of some files.
pub type QuestionFiles = Items<QuestionList>;

// The questions of a slot, which is read to its end.
fn load_questions<S: Shelf>(
    alloc: Global,
    shelf: &mut S,
    slot: u32,
    lanes: u32,
) -> Result<QuestionList, Stop>
    requires { slot < S.opened shelf.old }
    ensures questions { IfOk result (λ qs. IfSome (S.told shelf.old)
        (λ t. qs ≡ questions lanes (readable t slot))) }
    ensures lanes { IfOk result (AreWithin lanes) }
    ensures reads { ReadsToEnd (S.told shelf.old) (S.told shelf.new)
        (S.opened shelf.old) (S.opened shelf.new) slot result }
    ensures cause { BlamesShelf result (S.faults shelf.old) (S.faults shelf.new) }
    ensures reading { IfErr result IsOfReading }
{
    Ok(read_questions(alloc, shelf, slot, lanes)?)
}

// The questions of a file.
fn read_question_file<S: Shelf>(
    alloc: Global,
    shelf: &mut S,
    name: &str,
    lanes: u32,
) -> Result<QuestionList, Stop>
    requires { S.opened shelf.old < 2 ^ 31 }
    ensures questions { IfOk result (λ qs. IfSome (S.told shelf.old)
        (λ t. qs ≡ questions lanes (content t name.now))) }
    ensures lanes { IfOk result (AreWithin lanes) }
    ensures reads { Reads (λ c. stream_file c name.now ∷ []) (λ _. ⊤) 1 (λ _. 1)
        (S.told shelf.old) (S.told shelf.new) (S.opened shelf.old) (S.opened shelf.new) result }
    ensures cause { BlamesShelf result (S.faults shelf.old) (S.faults shelf.new) }
    ensures reading { IfErr result IsOfReading }
{
    let slot = open(shelf, name)?;
    load_questions(alloc, shelf, slot, lanes)
}

/// The questions of each file of these names to a program with that many lanes, in order; each file
/// is read to its end.
pub fn read_question_files<S: Shelf>(
    alloc: Global,
    shelf: &mut S,
    names: &[&str],
    lanes: u32,
) -> Result<QuestionFiles, Stop>
    requires { S.opened shelf.old + length names.now ≤ 2 ^ 31 }
    ensures questions { IfOk result (λ all. IfSome (S.told shelf.old)
        (λ t. all ≡ questions_of lanes (map (λ n. n.now) names.now) (content t))) }
    ensures lanes { IfOk result (All (AreWithin lanes)) }
    ensures count { IfOk result (λ all. length all ≡ length names.now) }
    ensures reads { Reads (whole_files (map (λ n. n.now) names.now)) (λ _. ⊤) (length names.now)
        (λ _. length names.now) (S.told shelf.old) (S.told shelf.new)
        (S.opened shelf.old) (S.opened shelf.new) result }
    ensures cause { BlamesShelf result (S.faults shelf.old) (S.faults shelf.new) }
    ensures reading { IfErr result IsOfReading }
{
    let mut all = QuestionFiles::new(alloc);
    for name in names {
        let questions = read_question_file(alloc, shelf, name, lanes)?;
        all.push(questions)?;
    }
    Ok(all)
}
