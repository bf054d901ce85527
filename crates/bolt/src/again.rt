// Words and files are looked at again, for what a person is told.
ghost use Rattle.std.specs.Prelude.{◌≡◌, ◌≤◌, [], IfOk};
ghost use Rattle.std.specs.String.{string_bytes};

use crate::advice::{of_program, of_words};
use crate::usage::reason;
use cli_words::read_words;
use live_words::{is_live, read_live};
use program_files::judge;
use std::alloc::{AllocError, Global};
use std::fs::File;
use std::io::Read;
use std::rt::Files;
use std::{fs, io};

/// The longest text of a program.
const MOST_TEXT: u64 = 65_536;

// The name of the file with a command's program, if one is named.
fn program_file(words: &[String]) -> Option<&str> {
    match words.first()?.as_str() {
        "run" | "live" | "once" | "check" => words.get(1)?.as_str().strip_prefix("file:"),
        _ => None,
    }
}

// The name of a command's graph.
fn graph_file(words: &[String]) -> Option<&str> {
    match words.first()?.as_str() {
        "run" | "live" | "once" => Some(words.get(2)?.as_str()),
        _ => None,
    }
}

// The name of a command's stream.
fn stream_file(words: &[String]) -> Option<&str> {
    match words.first()?.as_str() {
        "run" => Some(words.get(3)?.as_str()),
        _ => None,
    }
}

// Reads a byte of a file.
fn read_byte<R: Files>(rt: &R, name: &str) -> io::Result<usize> {
    let mut byte = [0u8; 1];
    File::open(rt, name)?.read(&mut byte)
}

// Why a file can't be read, if that shows again. A pipe isn't opened again.
fn failure<R: Files>(rt: &R, name: &str) -> Option<io::Error> {
    match fs::metadata(rt, name) {
        Ok(data) if data.is_file() || data.is_dir() => read_byte(rt, name).err(),
        Ok(_) => None,
        Err(error) => Some(error),
    }
}

// The first of the files behind an option that can't be read, and why.
fn option_failure<'a, R: Files>(
    rt: &R,
    words: &'a [String],
    option: &str,
) -> Option<(&'a str, io::Error)> {
    for word in words {
        if let Some(name) = word.as_str().strip_prefix(option)
            && let Some(error) = failure(rt, name)
        {
            return Some((name, error));
        }
    }
    None
}

// The first of a command's files that can't be read, and why. Streams and questions of `live` are
// opened after its graph.
fn first_failure<'a, R: Files>(rt: &R, words: &'a [String]) -> Option<(&'a str, io::Error)> {
    for name in [program_file(words), graph_file(words), stream_file(words)] {
        if let Some(name) = name
            && let Some(error) = failure(rt, name)
        {
            return Some((name, error));
        }
    }
    match option_failure(rt, words, "--stream=") {
        Some(failed) => Some(failed),
        None => option_failure(rt, words, "--ask="),
    }
}

// Which of a command's files can't be read, and why.
fn of_files<R: Files + AllocGlobal>(rt: &R, words: &[String]) -> Result<String, AllocError> {
    let alloc = rt.alloc();
    match first_failure(rt, words) {
        Some((name, error)) => format!(in alloc; "bolt: {name:?} can't be read: {error}\n"),
        None => String::from_str(
            alloc,
            "bolt: a file couldn't be opened, or not be read to its end.\n",
        ),
    }
}

// The text of a program's file, if it is short enough to be one.
fn program_text<R: Files + AllocGlobal>(rt: &R, name: &str) -> Option<Vec<u8>> {
    let data = fs::metadata(rt, name).ok()?;
    if data.is_file() && data.len() <= MOST_TEXT {
        fs::read(rt, name).ok()
    } else {
        None
    }
}

// Why a command's program is refused, if its file gives the same text again.
fn of_refused_program<R: Files + AllocGlobal>(
    rt: &R,
    words: &[String],
) -> Result<String, AllocError> {
    let alloc = rt.alloc();
    let Some(name) = program_file(words) else {
        return Ok(String::new(alloc));
    };
    if let Some(text) = program_text(rt, name)
        && let Ok(Err(refusal)) = judge(alloc, text.as_slice())
    {
        return of_program(alloc, name, text.as_slice(), refusal);
    }
    format!(in alloc; "bolt: the program in {name:?} is refused.\n")
}

// Which graph is refused.
fn of_refused_graph(alloc: Global, words: &[String]) -> Result<String, AllocError> {
    let Some(name) = graph_file(words) else {
        return Ok(String::new(alloc));
    };
    format!(in alloc;
        "bolt: the graph in {name:?} is refused: standard output names its first bad \
        line, or the cells that it would need.\n"
    )
}

// The place of the first wrong or missing word, if there is one.
fn wrong_place(words: &[String]) -> Option<u32> {
    let refusal = if is_live(words) {
        read_live(words).err()?
    } else {
        read_words(words).err()?
    };
    Some(refusal.at)
}

/// What a person is told of a command that ended with a status: nothing of one that was done.
pub fn told<R: Files + AllocGlobal>(
    rt: &R,
    words: &[String],
    status: u8,
) -> Result<String, AllocError>
    ensures done { status ≤ 1 → IfOk result (λ text. string_bytes text ≡ []) }
{
    let alloc = rt.alloc();
    match status {
        2 => match wrong_place(words) {
            Some(at) => of_words(alloc, words, at),
            None => Ok(String::new(alloc)),
        },
        3 => of_refused_program(rt, words),
        4 => of_refused_graph(alloc, words),
        5 => of_files(rt, words),
        _ => String::from_str(alloc, reason(status)),
    }
}
