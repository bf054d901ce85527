// Large texts.
use crate::rows::{Row, shelf_of, status_of, try_row};
use bolt_base::{Memory, OpenGate};
use bolt_io::MemSink;
use std::alloc::{AllocError, Global};
use std::fmt::Write;
use std::test::Fail;
use std::thread::Threads;

fn repeated(alloc: Global, text: &str, count: u32) -> Result<String, AllocError> {
    let mut all = String::new(alloc);
    for _ in 0..count {
        all.push_str(text)?;
    }
    Ok(all)
}

// A program's text is too long by one byte.
#[test]
fn a_program_is_too_long(rt: HostRuntime) -> Result<(), Fail> {
    let alloc = rt.alloc();
    let blanks = repeated(alloc, " ", 65_537)?;
    let files = format!(in alloc; "p\n{blanks}$")?;
    let row = Row {
        name: "hostile-programs",
        lines: "check file:p",
        files: &files,
        status: 3,
        text: "program refused toobig at 65536",
    };
    try_row(&rt, alloc, &row, 5000)?;
    Ok(())
}

// What a command line writes over some files.
fn written_by<R: Threads + Sync>(
    rt: &R,
    alloc: Global,
    line: &str,
    files: &str,
) -> Result<String, Memory> {
    let mut shelf = shelf_of(alloc, files, 5000)?;
    let mut out = MemSink::new(alloc, 5000);
    status_of(rt, alloc, line, &mut shelf, &mut out, &OpenGate)?;
    let text = str::from_utf8(out.written()).unwrap_or("");
    Ok(String::from_str(alloc, text)?)
}

// A hub's program: vertices add up what they are given, 64 times.
const HUB: &str = "p = base\nvertices 2000\ndegree 1000\nedges 200000\nrounds 64\nlane 0 0 100000\n\
    apply 0 clamp(old[0] + agg[0], 0, 100000)\n<g\n";

// The edges of each of 50 vertices to each of 20 others.
fn push_edges(text: &mut String) -> Result<(), AllocError> {
    for edge in 0..1000 {
        write!(text, "{} {}\n", edge / 20, edge % 20 + 50)?;
    }
    Ok(())
}

// An edge is cut and added again, 50 times: refinement reads ten edges a batch, where computing
// anew reads 64,000.
#[test]
fn a_hub_is_refined(rt: HostRuntime) -> Result<(), Fail> {
    let alloc = rt.alloc();
    let mut files = String::from_str(alloc, HUB)?;
    push_edges(&mut files)?;
    files.push_str("<s\n")?;
    files.push_str(&repeated(alloc, "- 0 50\ncommit\n+ 0 50\ncommit\n", 50)?)?;
    let text = written_by(&rt, alloc, "run file:p g s --show=none", &files)?;
    assert!(rt;
        text.as_str()
            .starts_with("open vertices 70 edges 1000 kept 200 visits 64000\n")
    );
    let cut = " accepted added 0 removed 1 edges 999 kept 200 visits 10\n";
    assert!(rt; text.as_str().split(cut).count() == 51);
    let added = " accepted added 1 removed 0 edges 1000 kept 200 visits 10\n";
    assert!(rt; text.as_str().split(added).count() == 51);
    assert!(rt;
        text.as_str()
            .ends_with("\ntotal 0 64000\nend accepted 100 refused 0\n")
    );
    Ok(())
}

#[test]
fn made_texts_run_as_made(rt: HostRuntime) -> Result<(), Fail> {
    let alloc = rt.alloc();
    let made = written_by(&rt, alloc, "make 7 50 500 5 20 run", "")?;
    let graph = written_by(&rt, alloc, "make 7 50 500 5 20 graph", "")?;
    let stream = written_by(&rt, alloc, "make 7 50 500 5 20 stream", "")?;
    let files = format!(in alloc; "g\n{graph}<s\n{stream}")?;
    let run = written_by(&rt, alloc, "run rank g s --show=none --workers=4", &files)?;
    assert!(rt;
        made.as_str()
            .ends_with("total 0 49999017\nend accepted 5 refused 0\n")
    );
    assert!(rt; made.as_str() == run.as_str());
    Ok(())
}
