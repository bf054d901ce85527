// Rows: what command lines write over some files. A row is a text:
//
//     NAME: WORDS
//     <FILE
//     its lines
//     >STATUS
//     the lines that are written
//
// There may be several command lines, with ` | ` between them, which all write the same. A file
// may be a program that is told by its change, `<FILE = base` or `<FILE = rank`: each line of that
// program is replaced by the lines that begin with the same word. `$` ends a file without a line
// feed, and `''` is the empty word.
ghost use Rattle.std.specs.Prelude.{◌≡◌, ◌≤◌, [], IfOk};

use bolt_base::{Gate, Memory, OpenGate};
use bolt_cli::bolt_still;
use bolt_io::{MemShelf, MemSink};
use std::alloc::{AllocError, Global};
use std::process::Abort;
use std::thread::Threads;

// A small program.
const BASE: &str =
    "program base\nvertices 1000\ndegree 1\nedges 1000\nweight -10 10\nattr 0 100\nrounds 1\n\
    combine sum\nlane 0 0 100\ninit 0 0\ncontribute 0 1\napply 0 agg[0]";

// The shipped program `rank`.
const RANK: &str =
    "program rank\nvertices 1000000\ndegree 1000000\nedges 8000000\nweight -1000000 1000000\n\
    attr -1000000 1000000\nrounds 10\ncombine sum\nlane 0 0 1000000000000\ninit 0 1000000\n\
    contribute 0 val[0] / outdeg\napply 0 clamp(150000 + agg[0] * 17 / 20, 0, 1000000000000)";

#[derive(Clone, Copy)]
pub struct Row<'a> {
    pub name: &'a str,
    pub lines: &'a str,
    pub files: &'a str,
    pub status: u8,
    pub text: &'a str,
}

pub fn row_of(text: &str) -> Option<Row<'_>> {
    let (head, end) = text.split_once("\n>")?;
    let (status, text) = end.split_once('\n').unwrap_or((end, ""));
    let (first, files) = head.split_once("\n<").unwrap_or((head, ""));
    let (name, lines) = first.split_once(": ")?;
    let status = status.parse::<u8>().ok()?;
    Some(Row {
        name,
        lines,
        files,
        status,
        text,
    })
}

pub fn words_of(alloc: Global, line: &str) -> Result<Vec<String>, AllocError> {
    let mut words = Vec::new(alloc);
    for word in line.split(' ') {
        if !word.is_empty() {
            let said = if word == "''" { "" } else { word };
            words.push(String::from_str(alloc, said)?)?;
        }
    }
    Ok(words)
}

// Lines with their ends.
pub fn text_of(alloc: Global, lines: &str) -> Result<String, AllocError> {
    if let Some((open, _)) = lines.split_once('$') {
        return String::from_str(alloc, open);
    }
    let mut text = String::from_str(alloc, lines)?;
    if !lines.is_empty() {
        text.push('\n')?;
    }
    Ok(text)
}

fn first_word(line: &str) -> &str {
    line.split(' ').next().unwrap_or("")
}

// Appends what stands for a line of a program: the lines of its change, or else itself.
fn push_changed(text: &mut String, line: &str, changes: &str) -> Result<(), AllocError> {
    let mut is_changed = false;
    for change in changes.split('\n') {
        if first_word(change) == first_word(line) {
            text.push_str(change)?;
            text.push('\n')?;
            is_changed = true;
        }
    }
    if !is_changed {
        text.push_str(line)?;
        text.push('\n')?;
    }
    Ok(())
}

fn program_of(alloc: Global, program: &str, changes: &str) -> Result<String, AllocError> {
    let mut text = String::new(alloc);
    for line in program.split('\n') {
        push_changed(&mut text, line, changes)?;
    }
    Ok(text)
}

// Puts a file, which is told by its name and its lines, on a shelf.
fn put_part(alloc: Global, shelf: &mut MemShelf, part: &str) -> Result<(), Memory>
    requires { shelf.old.shelf.told.slots ≡ [] }
    ensures { shelf.new.shelf.told.slots ≡ [] }
{
    let (head, lines) = part.split_once('\n').unwrap_or((part, ""));
    match head.split_once(" = ") {
        Some((name, program)) => {
            let program = if program == "rank" { RANK } else { BASE };
            let text = program_of(alloc, program, lines)?;
            shelf.put_file(name, text.as_bytes())
        }
        None => {
            let text = text_of(alloc, lines)?;
            shelf.put_file(head, text.as_bytes())
        }
    }
}

pub fn shelf_of(alloc: Global, files: &str, piece: usize) -> Result<MemShelf, Memory>
    requires { 1 ≤ piece }
    ensures { IfOk result (λ s. s.shelf.told.slots ≡ []) }
{
    let mut shelf = MemShelf::new(alloc, piece);
    for part in files.split("\n<") {
        put_part(alloc, &mut shelf, part)?;
    }
    Ok(shelf)
}

// What a command line ends with.
pub fn status_of<T: Gate + Sync, R: Threads + Sync>(
    rt: &R,
    alloc: Global,
    line: &str,
    shelf: &mut MemShelf,
    out: &mut MemSink,
    gate: &T,
) -> Result<u8, AllocError>
    requires { shelf.old.shelf.told.slots ≡ [] }
{
    let words = words_of(alloc, line)?;
    Ok(bolt_still(rt, alloc, &words, shelf, out, gate))
}

// Tries the command lines of a row, with reads and writes in pieces.
pub fn try_row<R: Abort + Threads + Sync>(
    rt: &R,
    alloc: Global,
    row: &Row,
    piece: usize,
) -> Result<(), Memory>
    requires { 1 ≤ piece }
{
    let text = text_of(alloc, row.text)?;
    for line in row.lines.split('|') {
        let mut shelf = shelf_of(alloc, row.files, piece)?;
        let mut out = MemSink::new(alloc, piece);
        let status = status_of(rt, alloc, line, &mut shelf, &mut out, &OpenGate)?;
        let said = str::from_utf8(out.written()).unwrap_or("");
        assert!(rt; said == text.as_str(), "{}:{line}: {said}", row.name);
        assert!(rt; status == row.status, "{}:{line}: {status}", row.name);
    }
    Ok(())
}

// Tries the rows of a text, which empty lines separate, in pieces of several sizes.
pub fn try_rows<R: Abort + Threads + Sync>(
    rt: &R,
    alloc: Global,
    rows: &str,
) -> Result<(), Memory> {
    for text in rows.split("\n\n") {
        let row = row_of(text);
        assert!(rt; row.is_some(), "{text}");
        if let Some(row) = row {
            for piece in [1, 7, 500, 5000] {
                try_row(rt, alloc, &row, piece)?;
            }
        }
    }
    Ok(())
}
