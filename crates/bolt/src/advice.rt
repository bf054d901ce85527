// What a person is told on standard error, as texts.
use crate::caret::push_place;
use crate::usage::usage;
use program_files::ProgramRefusal;
use range_check::RangeRefusal;
use std::alloc::{AllocError, Global};
use text_words::LangError;
use vertex_expr::Part;

// Which word is wrong, by its place, or after which one a word is missing.
fn wrong_word(alloc: Global, words: &[String], at: u32) -> Result<String, AllocError> {
    match (words.get((at as usize).saturating_sub(1)), words.last()) {
        (Some(word), _) if at == 1 => format!(in alloc; "bolt: {word:?} is no command.\n\n"),
        (Some(word), _) => format!(in alloc; "bolt: word {at}, {word:?}, is wrong here.\n\n"),
        (None, Some(last)) => format!(in alloc; "bolt: a word is missing after {last:?}.\n\n"),
        (None, None) => Ok(String::new(alloc)),
    }
}

/// Which word is wrong or missing, and the usage of its command. Without words the usage of all.
pub fn of_words(alloc: Global, words: &[String], at: u32) -> Result<String, AllocError> {
    let mut text = wrong_word(alloc, words, at)?;
    let command = match words.first() {
        Some(word) => word.as_str(),
        None => "",
    };
    for part in usage(command) {
        text.push_str(part)?;
    }
    Ok(text)
}

fn part_word(part: Part) -> &'static str {
    match part {
        Part::Init => "init",
        Part::Contribute => "contribute",
        Part::Aggregate => "aggregate",
        Part::Apply => "apply",
    }
}

// Why a program isn't safe on every graph.
fn range_reason(alloc: Global, refusal: RangeRefusal) -> Result<String, AllocError> {
    match refusal {
        RangeRefusal::Zero { part, node } => {
            let word = part_word(part);
            format!(in alloc; "a divisor in {word} may be 0 (its node {node})")
        }
        RangeRefusal::Wide { part, node } => {
            let word = part_word(part);
            format!(in alloc; "a number in {word} may be past 2^120 (its node {node})")
        }
        RangeRefusal::Sum { lane } => {
            format!(in alloc; "what is contributed to lane {lane} may not fit 64 bits")
        }
        RangeRefusal::Value { part, lane, lo, hi } => {
            let word = part_word(part);
            format!(in alloc;
                "{word} gives lane {lane} from {lo} to {hi}, which is more than its range"
            )
        }
        RangeRefusal::Memory => String::from_str(alloc, "there isn't enough memory"),
    }
}

// Why a text is no program, and the place of the byte where that shows.
fn text_reason(error: LangError) -> (&'static str, Option<u32>) {
    match error {
        LangError::Syntax { at } => (
            "this can't stand here, or the line ends too early",
            Some(at),
        ),
        LangError::Unknown { at } => ("nothing has this name here", Some(at)),
        LangError::Repeat { at } => ("this stands in the text already", Some(at)),
        LangError::TooBig { at } => ("this is too big, or one too many", Some(at)),
        LangError::Missing { .. } => ("an entry is missing", None),
        LangError::Memory => ("there isn't enough memory", None),
    }
}

/// Why the program of a file is refused, and the line of its text where that shows.
pub fn of_program(
    alloc: Global,
    name: &str,
    text: &[u8],
    refusal: ProgramRefusal,
) -> Result<String, AllocError> {
    match refusal {
        ProgramRefusal::Range(refusal) => {
            let why = range_reason(alloc, refusal)?;
            format!(in alloc; "bolt: the program in {name:?} is refused: {why}.\n")
        }
        ProgramRefusal::Text(error) => {
            let (why, place) = text_reason(error);
            let mut told = format!(in alloc; "bolt: the program in {name:?} is refused: {why}.\n")?;
            if let Some(at) = place {
                push_place(&mut told, text, at as usize)?;
            }
            Ok(told)
        }
    }
}
