//! The program: the command over real files and standard output.
#![tactic(auto)]

ghost use Rattle.std.specs.Prelude.{◌≡◌, ◌≢◌, drop};
ghost use Rattle.std.specs.IoError.{error_kind};

mod advice;
mod again;
mod caret;
mod file_shelf;
mod std_sink;
mod usage;

use again::told;
use bolt_base::OpenGate;
use bolt_cli::bolt;
use file_shelf::FileShelf;
use std::io::ErrorKind;
use std::process::ExitCode;
use std::rt::Files;
use std::{env, io};
use std_sink::StdSink;
use usage::reason;

fn main(rt: HostRuntime) -> ExitCode {
    let all: Vec<String> = match env::args(&rt) {
        Ok(all) => match all.collect(rt.alloc()) {
            Ok(all) => all,
            Err(error) => return end_wordless(&rt, &io::Error::from(error)),
        },
        Err(error) => return end_wordless(&rt, &error),
    };
    let words = after_name(&all);
    let mut shelf = FileShelf::new(&rt, rt.alloc());
    let mut out = StdSink::new(io::writer(&rt));
    let status = bolt(&rt, rt.alloc(), words, &mut shelf, &mut out, &OpenGate);
    tell(&rt, words, status);
    ExitCode::from(status)
}

// Tells a person on standard error what there is to tell. That it can't be told changes nothing.
fn tell<R: Files + Eprint + AllocGlobal>(rt: &R, words: &[String], status: u8) {
    if let Ok(text) = told(rt, words, status) {
        let _ = rt.eprint(text);
    }
}

// The end of the program where the words can't be had.
fn end_wordless(rt: &impl Eprint, error: &io::Error) -> ExitCode {
    let status = no_words(error);
    let _ = rt.eprint(reason(status));
    ExitCode::from(status)
}

// The words after the program's name.
fn after_name(all: &[String]) -> &[String]
    ensures { result.now ≡ drop 1 all.now }
{
    if all.is_empty() { all } else { &all[1..] }
}

// The status where the words can't be had: 7 for want of memory, and 9 for another cause.
fn no_words(error: &io::Error) -> u8
    ensures memory { error_kind error.now ≡ ErrorKind.OutOfMemory → result ≡ 7 }
    ensures other { error_kind error.now ≢ ErrorKind.OutOfMemory → result ≡ 9 }
{
    match error.kind() {
        ErrorKind::OutOfMemory => 7,
        _ => 9,
    }
}

#[cfg(test)]
mod tests;
