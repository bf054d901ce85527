// Rows of `live`. With one stream and no question its text is certain. Questions meet the batches
// at one prefix or another: there the text is one of a few, which a row has one after another.
ghost use Rattle.std.specs.Prelude.{◌≡◌, ◌≤◌, []};

use crate::rows::{Row, row_of, shelf_of, text_of, words_of};
use bolt_base::{Gate, Memory, OpenGate};
use bolt_cli::bolt;
use bolt_io::{MemShelf, MemSink};
use std::alloc::{AllocError, Global};
use std::process::Abort;
use std::sync::Wait;
use std::test::Fail;
use std::thread::Threads;

// The texts that a row may write, each behind such a line.
const OR: &str = "\n-- or\n";

// What is refused, and streams without questions.
const CERTAIN: &str = "live-triangle: live rank g --stream=s | live rank g --stream=s --workers=2
<g
0 1
1 2
2 0
<s
- 2 0
commit
>0
open vertices 3 edges 3 kept 3 visits 30
entry 1 stream 0 batch 1 accepted added 0 removed 1 edges 2 kept 6 visits 27
total 0 813375
end accepted 1 refused 0

live-refused-batches: live rank g --stream=s
<g
0 1
1 2
2 0
<s
+ 0 1
commit
- 2 0
commit
- 2 0
commit
- 0 1
>1
open vertices 3 edges 3 kept 3 visits 30
entry 1 stream 0 batch 1 refused line 1 present
entry 2 stream 0 batch 2 accepted added 0 removed 1 edges 2 kept 6 visits 27
entry 3 stream 0 batch 3 refused line 5 absent
entry 4 stream 0 batch 4 refused line 7 unfinished
total 0 813375
end accepted 1 refused 3

live-empty-streams: live rank g --stream=s --stream=s
<g
0 1
1 2
2 0
<s
# no batch
>0
open vertices 3 edges 3 kept 3 visits 30
total 0 3000000
end accepted 0 refused 0

live-questions-of-nothing: live rank g --stream=s --ask=q --ask=s
<g
0 1
1 2
2 0
<s
<q
total 0
value 1
atleast 0 1000000
prefix
total 1
>0
open vertices 3 edges 3 kept 3 visits 30
reply 0 1 prefix 0 total 3000000
reply 0 2 prefix 0 value 1000000
reply 0 3 prefix 0 atleast 3
reply 0 4 prefix 0
reply 0 5 unknown
last 0 prefix 0 total 3000000
last 1 prefix 0 total 3000000
total 0 3000000
end accepted 0 refused 0

live-program-refused: live file:p nofile --stream=nofile
<p = base
rounds 0
>3
program refused toobig at 79

live-graph-refused: live rank g --stream=nofile --ask=nofile
<g
0 1
0 1
>4
graph refused line 2 present

live-cells-refused: live file:p g --stream=nofile --cut=64
<p
program pair
vertices 1000000
degree 1
edges 1
weight 0 0
attr 0 0
rounds 64
combine sum
lane 0 0 1
lane 1 0 1
init 0 0
init 1 0
contribute 0 0
contribute 1 0
apply 0 0
apply 1 0
<g
vertices 1000000
>4
graph refused cells 130000000 limit 67108864

live-no-program: live file:p g --stream=s
<g
>5

live-no-stream: live rank g --stream=s --stream=nofile --ask=q
<g
0 1
<s
<q
>5

live-no-questions: live rank g --stream=s --ask=nofile
<g
0 1
<s
>5";

// The place of the first wrong word.
const WORDS: &str = "2: live
2: live rnak g --stream=s
2: live file: g --stream=s
3: live rank
3: live rank --stream=s --stream=t
3: live rank '' --stream=s
4: live rank g
4: live rank g s
4: live rank g --stream=
4: live rank g --stream=--s
4: live rank g --ask= --stream=s
4: live rank g --show=all --stream=s
4: live rank g --cut=65 --stream=s
5: live rank g --ask=q
5: live rank g --stream=s --show=none
5: live rank g --stream=s s
5: live rank g --stream=s --workers=0
6: live rank g --stream=s --cut=1 --cut=2
7: live rank g --stream=s --ask=q --vertical=on --vertical=on
6: live rank g --ask=q --cut=1
20: live rank g --stream=s --stream=s --stream=s --stream=s --stream=s --stream=s --stream=s \
    --stream=s --stream=s --stream=s --stream=s --stream=s --stream=s --stream=s --stream=s \
    --stream=s --stream=s";

// live-triangle with questions.
pub const ASKED: &str = "live-triangle-asked: live rank g --stream=s --ask=q
<g
0 1
1 2
2 0
<s
- 2 0
commit
<q
value 3
prefix
sum
>0
open vertices 3 edges 3 kept 3 visits 30
entry 1 stream 0 batch 1 accepted added 0 removed 1 edges 2 kept 6 visits 27
reply 0 1 prefix 0 novertex 3
reply 0 2 prefix 0
reply 0 3 unknown
last 0 prefix 1 total 813375
total 0 813375
end accepted 1 refused 0
-- or
open vertices 3 edges 3 kept 3 visits 30
entry 1 stream 0 batch 1 accepted added 0 removed 1 edges 2 kept 6 visits 27
reply 0 1 prefix 0 novertex 3
reply 0 2 prefix 1
reply 0 3 unknown
last 0 prefix 1 total 813375
total 0 813375
end accepted 1 refused 0
-- or
open vertices 3 edges 3 kept 3 visits 30
entry 1 stream 0 batch 1 accepted added 0 removed 1 edges 2 kept 6 visits 27
reply 0 1 prefix 1 novertex 3
reply 0 2 prefix 1
reply 0 3 unknown
last 0 prefix 1 total 813375
total 0 813375
end accepted 1 refused 0";

// Two streams, whose batches come one way round or the other.
const TWO_STREAMS: &str = "live-two-streams: live rank g --stream=s --stream=t
<g
0 1
1 2
2 0
<s
- 2 0
commit
<t
commit
>0
open vertices 3 edges 3 kept 3 visits 30
entry 1 stream 0 batch 1 accepted added 0 removed 1 edges 2 kept 6 visits 27
entry 2 stream 1 batch 1 accepted added 0 removed 0 edges 2 kept 6 visits 0
total 0 813375
end accepted 2 refused 0
-- or
open vertices 3 edges 3 kept 3 visits 30
entry 1 stream 1 batch 1 accepted added 0 removed 0 edges 3 kept 3 visits 0
entry 2 stream 0 batch 1 accepted added 0 removed 1 edges 2 kept 6 visits 27
total 0 813375
end accepted 2 refused 0";

// What a command line ends with, which may wait.
pub fn live_status<T: Gate + Sync, R: Wait + Threads + Sync>(
    rt: &R,
    alloc: Global,
    line: &str,
    shelf: &mut MemShelf,
    out: &mut MemSink,
    gate: &T,
) -> Result<u8, AllocError>
    requires { shelf.old.shelf.told.slots ≡ [] }
{
    let words = words_of(alloc, line)?;
    Ok(bolt(rt, alloc, &words, shelf, out, gate))
}

// Whether bytes are all of one of the texts of a row, or a part of one.
pub fn is_of_row(
    alloc: Global,
    row: &Row,
    written: &[u8],
    is_part: bool,
) -> Result<bool, AllocError> {
    for lines in row.text.split(OR) {
        let text = text_of(alloc, lines)?;
        let is_this = text.as_bytes().starts_with(written);
        if is_this && (is_part || written.len() == text.len()) {
            return Ok(true);
        }
    }
    Ok(false)
}

// Tries the command lines of a row, with reads and writes in pieces.
fn try_live_row<R: Abort + Wait + Threads + Sync>(
    rt: &R,
    alloc: Global,
    row: &Row,
    piece: usize,
) -> Result<(), Memory>
    requires { 1 ≤ piece }
{
    for line in row.lines.split('|') {
        let mut shelf = shelf_of(alloc, row.files, piece)?;
        let mut out = MemSink::new(alloc, piece);
        let status = live_status(rt, alloc, line, &mut shelf, &mut out, &OpenGate)?;
        let is_one = is_of_row(alloc, row, out.written(), false)?;
        let said = str::from_utf8(out.written()).unwrap_or("");
        assert!(rt; is_one, "{}:{line}: {said}", row.name);
        assert!(rt; status == row.status, "{}:{line}: {status}", row.name);
    }
    Ok(())
}

// Tries the rows of a text, which empty lines separate, in pieces of several sizes.
fn try_live_rows<R: Abort + Wait + Threads + Sync>(
    rt: &R,
    alloc: Global,
    rows: &str,
) -> Result<(), Memory> {
    for text in rows.split("\n\n") {
        let row = row_of(text);
        assert!(rt; row.is_some(), "{text}");
        if let Some(row) = row {
            for piece in [1, 7, 5000] {
                try_live_row(rt, alloc, &row, piece)?;
            }
        }
    }
    Ok(())
}

// Tries the command lines of a table, whose words are refused at a place.
fn try_words<R: Abort + Wait + Threads + Sync>(
    rt: &R,
    alloc: Global,
    table: &str,
) -> Result<(), Memory> {
    for line in table.split('\n') {
        let (place, words) = line.split_once(": ").unwrap_or(("", line));
        let text = format!(in alloc; "words refused at {place}")?;
        let row = Row {
            name: "",
            lines: words,
            files: "",
            status: 2,
            text: &text,
        };
        try_live_row(rt, alloc, &row, 16)?;
    }
    Ok(())
}

#[test]
fn live_makes_its_texts(rt: HostRuntime) -> Result<(), Fail> {
    let alloc = rt.alloc();
    for rows in [CERTAIN, ASKED, TWO_STREAMS] {
        try_live_rows(&rt, alloc, rows)?;
    }
    try_words(&rt, alloc, WORDS)?;
    Ok(())
}
