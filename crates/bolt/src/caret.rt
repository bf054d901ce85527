// A place of a text, shown by its line with a caret under it.
ghost use Rattle.std.specs.Prelude.{◌≤◌, length};

use std::alloc::AllocError;

// Where the line of a byte begins.
fn line_begin(text: &[u8], at: usize) -> usize
    requires { at ≤ length text.now }
    ensures { result ≤ at }
{
    for before in 0..at {
        if text[at - 1 - before] == b'\n' {
            return at - before;
        }
    }
    0
}

// Where it ends.
fn line_end(text: &[u8], at: usize) -> usize
    requires { at ≤ length text.now }
    ensures after { at ≤ result }
    ensures within { result ≤ length text.now }
{
    for end in at..text.len() {
        if text[end] == b'\n' {
            return end;
        }
    }
    text.len()
}

// The number of the line that begins at a place, from 1.
fn line_number(before: &[u8]) -> u64 {
    let mut number: u64 = 1;
    for b in before {
        if *b == b'\n' {
            number = number.saturating_add(1);
        }
    }
    number
}

// A byte of a text as it is shown, in one column.
fn shown(b: u8) -> char {
    match b {
        b' '..=b'~' => char::from(b),
        b'\t' | b'\r' => ' ',
        _ => '?',
    }
}

// Appends bytes of a line as they are shown.
fn push_shown(told: &mut String, bytes: &[u8]) -> Result<(), AllocError> {
    for b in bytes {
        told.push(shown(*b))?;
    }
    Ok(())
}

// Appends so many spaces.
fn push_spaces(told: &mut String, count: usize) -> Result<(), AllocError> {
    for _ in 0..count {
        told.push(' ')?;
    }
    Ok(())
}

/// Appends the line of the byte at a place, as far as it is near, and a caret under that byte. A
/// place past the text has no line.
pub fn push_place(told: &mut String, text: &[u8], at: usize) -> Result<(), AllocError> {
    if at > text.len() {
        return Ok(());
    }
    let begin = line_begin(text, at);
    let number = line_number(&text[..begin]);
    let first = begin.max(at.saturating_sub(60));
    let end = line_end(text, at).min(at.saturating_add(20));
    write!(told, "\nline {number}:\n  ")?;
    push_shown(told, &text[first..end])?;
    told.push_str("\n  ")?;
    push_spaces(told, at - first)?;
    told.push_str("^\n")
}
