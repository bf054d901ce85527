// The adapters over the real system, and what a person is told.
use crate::advice::{of_program, of_words};
use crate::again::told;
use crate::file_shelf::FileShelf;
use crate::std_sink::StdSink;
use bolt_io::{OpenFault, Shelf, Sink, read_whole};
use program_files::ProgramRefusal;
use std::alloc::{AllocError, Global};
use std::test::Fail;
use std::{fs, io};
use text_words::LangError;

#[test]
fn a_file_is_read_and_an_absent_one_is_a_fault(rt: HostRuntime) -> Result<(), Fail> {
    let alloc = rt.alloc();
    fs::write(&rt, "a_file_of_two_lines", b"0 1\n1 2\n")?;
    let mut shelf = FileShelf::new(&rt, alloc);
    let slot = shelf.open("a_file_of_two_lines")?;
    let bytes = read_whole(alloc, &mut shelf, slot)?;
    assert_eq!(rt; bytes.as_slice(), b"0 1\n1 2\n".as_slice());
    assert_eq!(rt; shelf.open("no_such_file"), Err(OpenFault::Failed));
    fs::remove_file(&rt, "a_file_of_two_lines")?;
    Ok(())
}

#[test]
fn a_line_is_written(rt: HostRuntime) -> Result<(), Fail> {
    let mut out = StdSink::new(io::writer(&rt));
    let line = b"a line of the sink\n".as_slice();
    let n = out.write(line)?;
    assert!(rt; 1 <= n && n <= line.len());
    Ok(())
}

fn strings(alloc: Global, words: &[&str]) -> Result<Vec<String>, AllocError> {
    let mut all = Vec::new(alloc);
    for word in words {
        all.push(String::from_str(alloc, word)?)?;
    }
    Ok(all)
}

#[test]
fn a_wrong_word_is_told_with_the_usage(rt: HostRuntime) -> Result<(), Fail> {
    let alloc = rt.alloc();
    let words = strings(alloc, &["check", "rnak"])?;
    let text = of_words(alloc, &words, 2)?;
    let wanted =
        "bolt: word 2, \"rnak\", is wrong here.\n\n  bolt check PROGRAM\n\nPROGRAM is rank, \
        labels2, labels4, dist or wide, or file:NAME.\n";
    assert_eq!(rt; text.as_str(), wanted);
    Ok(())
}

#[test]
fn a_missing_word_is_told_with_the_usage(rt: HostRuntime) -> Result<(), Fail> {
    let alloc = rt.alloc();
    let words = strings(alloc, &["check"])?;
    let text = of_words(alloc, &words, 2)?;
    assert!(rt;
        text.as_str()
            .starts_with("bolt: a word is missing after \"check\".\n\n  bolt")
    );
    Ok(())
}

#[test]
fn without_words_all_commands_are_told(rt: HostRuntime) -> Result<(), Fail> {
    let alloc = rt.alloc();
    let words = Vec::new(alloc);
    let text = of_words(alloc, &words, 1)?;
    assert!(rt; text.as_str().starts_with("bolt keeps the answer"));
    Ok(())
}

#[test]
fn a_place_of_a_program_has_a_caret(rt: HostRuntime) -> Result<(), Fail> {
    let alloc = rt.alloc();
    let refusal = ProgramRefusal::Text(LangError::Syntax { at: 19 });
    let text = of_program(alloc, "p", b"program a\nvertices x\nrounds 3\n", refusal)?;
    let wanted =
        "bolt: the program in \"p\" is refused: this can't stand here, or the line ends too \
        early.\n\nline 2:\n  vertices x\n           ^\n";
    assert_eq!(rt; text.as_str(), wanted);
    Ok(())
}

#[test]
fn a_file_that_is_not_there_is_named(rt: HostRuntime) -> Result<(), Fail> {
    let words = strings(rt.alloc(), &["once", "rank", "no_such_file"])?;
    let text = told(&rt, &words, 5)?;
    let wanted = "bolt: \"no_such_file\" can't be read: No such file or directory (os error 2)\n";
    assert_eq!(rt; text.as_str(), wanted);
    assert!(rt; told(&rt, &words, 1)?.is_empty());
    Ok(())
}

#[test]
fn a_stream_of_live_that_is_missing_is_told(rt: HostRuntime) -> Result<(), Fail> {
    let words = strings(rt.alloc(), &["live", "rank", "g", "--ask=q"])?;
    let text = told(&rt, &words, 2)?;
    assert!(rt;
        text.as_str().starts_with(
            "bolt: a word is missing after \"--ask=q\".\n\n  bolt live PROGRAM GRAPH"
        )
    );
    Ok(())
}

#[test]
fn a_stream_of_live_that_is_not_there_is_named(rt: HostRuntime) -> Result<(), Fail> {
    let alloc = rt.alloc();
    fs::write(&rt, "a_graph_that_is_there", b"0 1\n")?;
    let graph = "a_graph_that_is_there";
    let words = strings(alloc, &["live", "rank", graph, "--stream=no_such_file"])?;
    let text = told(&rt, &words, 5)?;
    let wanted = "bolt: \"no_such_file\" can't be read: No such file or directory (os error 2)\n";
    assert_eq!(rt; text.as_str(), wanted);
    fs::remove_file(&rt, graph)?;
    Ok(())
}
