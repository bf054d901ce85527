// Words, programs, graphs and streams that the command refuses. In the tables each line has an
// answer and a text, whose lines `|` separates.
use crate::rows::{Row, try_row};
use bolt_base::Memory;
use std::alloc::{AllocError, Global};
use std::process::Abort;
use std::test::Fail;
use std::thread::Threads;

// The place of the first wrong word, at each place of each command.
const WORDS: &str = "1: \x20
1: walk rank g s
1: Run rank g s
1: ''
2: run
2: run rnak g s
2: run file: g s
2: run file:--p g s
2: once --workers=1
2: check
2: check rnak
2: make
2: make -1 1 1 1 1 run
2: make 18446744073709551616 1 1 1 1 run
3: run rank
3: run rank --g s
3: run rank '' s
3: once rank
3: check rank g
3: check rank --show=all
3: make 7
3: make 7 0 1 1 1 run
3: make 7 1000001 1 1 1 run
4: run rank g
4: run rank g --cut=1
4: once rank g s
4: once rank g --cut=1
4: once rank g --vertical=on
4: make 7 1 0 1 1 run
4: make 7 1 4000001 1 1 run
5: run rank g s t
5: run rank g s --
5: run rank g s --cut
5: run rank g s --cut=
5: run rank g s --cut=0
5: run rank g s --cut=65
5: run rank g s --cut=1x
5: run rank g s --cut=-1
5: run rank g s --vertical=On
5: run rank g s --workers=0
5: run rank g s --workers=65
5: run rank g s --show=some
5: once rank g --show=none --show=none
5: make 7 1 1 100001 1 run
5: make 7 1 1 1x 1 run
6: run rank g s --cut=1 --cut=1
6: run rank g s --vertical=off --workers=18446744073709551617
6: make 7 1 1 1 0 run
6: make 7 1 1 1 1000001 run
6: make 7 1 4000000 100000 41 run
7: make 7 1 1 1 1
7: make 7 1 1 1 1 --show=none
8: make 7 1 1 1 1 graph --show=all
8: make 7 1 1 1 1 stream graph
8: make 7 1 1 1 1 run --ask=q";

// Changes of a small program.
const PROGRAMS: &str = "repeat at 151: apply 0 agg[0]|apply 0 agg[0]
toobig at 79: rounds 0
toobig at 57: weight 10 -10
unknown at 113: init 0 val[0]
toobig at 132: contribute 0 val[1]
syntax at 130: contribute 0 (1
toobig at 160: contribute 0 (((((((((((((((((((((((((((((((((
syntax at 78: rounds
syntax at 79: rounds 1x
syntax at 81: rounds 1 1
syntax at 79: rounds -1
missing lane: lane 1 0 100
toobig at 111: init 1 0
syntax at 116: init 0 0 +
syntax at 128: contribute 0 \u{e9}
zero init 2: init 0 1 / attr
wide init 2: init 0 9223372036854775807 * 9223372036854775807
value init 0 101 101: init 0 101
zero contribute 2: contribute 0 1/0
wide contribute 2: contribute 0 9223372036854775807 * 9223372036854775807
sum 0: contribute 0 9223372036854775807 + 1
sum 0: degree 2|contribute 0 9223372036854775807
zero apply 2: apply 0 1 / agg[0]
wide apply 2: apply 0 9223372036854775807 * 9223372036854775807
toobig at 138: apply 0 9223372036854775808
value apply 0 -9223372036854775808 -9223372036854775808: apply 0 -9223372036854775808
sum 0: degree 101|lane 0 0 9223372036854775807|contribute 0 92233720368547758
zero contribute 2: weight 0 5|contribute 0 val[0] / weight";

// Graphs for a program with 1,000 vertices and two edges, out of a vertex at most one.
const GRAPHS: &str = "line 1 vertex: 1000 0
line 1 vertex: vertices 1001
line 2 vertex: vertices 2|0 2
line 1 syntax: 4294967296 0
line 1 weight: 0 1 11
line 1 weight: 0 1 -11
line 1 attribute: attr 0 101
line 1 attribute: attr 0 -1
line 1 syntax: 0 1 1 1
line 1 syntax: \0
line 1 syntax: 0 1\r1 2
line 1 syntax: 0 -1
line 1 syntax: 0 1 9223372036854775808
line 1 syntax: attr 0
line 2 syntax: vertices 3|vertices 3
line 2 syntax: 0 1|vertices 3
line 2 present: 0 1|0 1 2
line 4 present: # attributes||attr 0 1|attr 0 1
line 2 degree: 0 1|0 2
line 2 degree: 0 1|2 1
line 3 edges: 0 1|1 2|2 3";

// Streams on the graph with the edges 0 1 and 1 2 among four vertices, for this program with one
// vertex more.
const STREAMS: &str = "line 1 syntax: * 1 2|commit
line 2 syntax: - 0 1|+ 0|commit
line 1 syntax: - 0 1 1|commit
line 1 syntax: v 0|commit
line 1 syntax: commit 1|commit
line 1 syntax: + 0 4294967296|commit
line 1 syntax: v 0 9223372036854775808|commit
line 1 vertex: + 3 4|commit
line 1 vertex: - 4 0|commit
line 1 vertex: v 5 0|commit
line 3 vertex: v 4 0|# the room|v 5 0|commit
line 1 weight: + 3 0 11|commit
line 1 attribute: v 0 101|commit
line 2 attribute: v 4 1|v 4 -1|commit
line 1 present: + 0 1|commit
line 2 present: - 0 1|+ 1 2 2|commit
line 1 absent: - 1 0|commit
line 2 absent: - 0 1|- 0 1|commit
line 1 degree: + 0 2|commit
line 2 degree: - 0 1|+ 3 2|commit
line 1 edges: + 2 3|commit
line 3 edges: - 0 1|+ 0 1|+ 2 3|commit
line 1 unfinished: - 0 1
line 2 unfinished: |* 1 2|";

// The lines that bars separate.
fn lines_of(alloc: Global, bars: &str) -> Result<String, AllocError> {
    let mut lines = String::new(alloc);
    for (k, line) in bars.split('|').enumerate() {
        if k > 0 {
            lines.push('\n')?;
        }
        lines.push_str(line)?;
    }
    Ok(lines)
}

// Tries a row that a line of a table ends: its text is the row's only command line, or else the
// end of its files, and its answer stands in what is written.
fn try_case<R: Abort + Threads + Sync>(
    rt: &R,
    alloc: Global,
    row: &Row,
    case: (&str, &str),
    end: &str,
) -> Result<(), Memory> {
    let (answer, bars) = case;
    let last = lines_of(alloc, bars)?;
    let files = format!(in alloc; "{}{last}", row.files)?;
    let text = format!(in alloc; "{}{answer}{end}", row.text)?;
    let whole = Row {
        name: bars,
        lines: if row.lines.is_empty() {
            bars
        } else {
            row.lines
        },
        files: &files,
        status: row.status,
        text: &text,
    };
    try_row(rt, alloc, &whole, 16)
}

// Tries a row with each line of a table.
fn try_cases<R: Abort + Threads + Sync>(
    rt: &R,
    alloc: Global,
    row: &Row,
    cases: &str,
    end: &str,
) -> Result<(), Memory> {
    for line in cases.split('\n') {
        let case = line.split_once(": ");
        assert!(rt; case.is_some(), "{line}");
        if let Some(case) = case {
            try_case(rt, alloc, row, case, end)?;
        }
    }
    Ok(())
}

const REFUSED_WORDS: Row = Row {
    name: "",
    lines: "",
    files: "",
    status: 2,
    text: "words refused at ",
};

const REFUSED_PROGRAM: Row = Row {
    name: "",
    lines: "check file:p",
    files: "p = base\n",
    status: 3,
    text: "program refused ",
};

const REFUSED_GRAPH: Row = Row {
    name: "",
    lines: "once file:p g | run file:p g nofile",
    files: "p = base\nedges 2\n<g\n",
    status: 4,
    text: "graph refused ",
};

const REFUSED_BATCH: Row = Row {
    name: "",
    lines: "run file:p g s --show=none",
    files: "p = base\nvertices 5\nedges 2\n<g\nvertices 4\n0 1\n1 2\n<s\n",
    status: 1,
    text: "open vertices 4 edges 2 kept 2 visits 2\nbatch 1 refused ",
};

#[test]
fn refusals_are_named(rt: HostRuntime) -> Result<(), Fail> {
    let alloc = rt.alloc();
    try_cases(&rt, alloc, &REFUSED_WORDS, WORDS, "")?;
    try_cases(&rt, alloc, &REFUSED_PROGRAM, PROGRAMS, "")?;
    try_cases(&rt, alloc, &REFUSED_GRAPH, GRAPHS, "")?;
    let end = "\ntotal 0 2\nend accepted 0 refused 1";
    try_cases(&rt, alloc, &REFUSED_BATCH, STREAMS, end)?;
    Ok(())
}
