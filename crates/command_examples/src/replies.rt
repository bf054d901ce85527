// Rows of commands without a stream, and of what is refused before one is read.
use crate::rows::{try_rows, words_of};
use bolt_base::OpenGate;
use bolt_cli::bolt;
use bolt_io::{CalmShelf, CalmSink};
use std::test::Fail;

const REPLIES: &str = "check-rank: check rank
>0
program rank lanes 1 rounds 10 combine sum
init 0 1000000 1000000
contribute 0 0 1000000000000
aggregate 0 0 1000000000000000000
apply 0 150000 1000000000000

heavy-sum: check file:p
<p = base
program heavy
degree 100
lane 0 0 9223372036854775807
contribute 0 92233720368547758
>0
program heavy lanes 1 rounds 1 combine sum
init 0 0 0
contribute 0 92233720368547758 92233720368547758
aggregate 0 0 9223372036854775800
apply 0 0 9223372036854775800

ratio-accepted: check file:p
<p = base
program ratio
weight 1 5
combine max -3
contribute 0 val[0] / weight
apply 0 max(0, agg[0])
>0
program ratio lanes 1 rounds 1 combine max
init 0 0 0
contribute 0 0 100
aggregate 0 -3 100
apply 0 0 100

missing-program: check file:p
<p
>3
program refused missing program

missing-apply: check file:p
<p
program base
vertices 1000
degree 1
edges 1000
weight -10 10
attr 0 100
rounds 1
combine sum
lane 0 0 100
init 0 0
contribute 0 1
>3
program refused missing apply

unknown-word: check file:p
<p
- 0 2
>3
program refused unknown at 0

no-program: check file:p
<g
0 1
>5

no-graph: run rank nofile s | once rank nofile
<s
commit
>5

graph-present: run rank g s
<g
0 1
0 1
<s
commit
>4
graph refused line 2 present

graph-cells: run file:p g e --cut=64
<p = base
program pair
vertices 1000000
rounds 64
lane 0 0 100
lane 1 0 100
init 0 0
init 1 0
contribute 0 1
contribute 1 1
apply 0 agg[0]
apply 1 agg[1]
<g
vertices 1000000
<e
>4
graph refused cells 130000000 limit 67108864

make-small, graph: make 7 3 2 1 2 graph
>0
vertices 3
2 0 1
2 1 1

make-small, stream: make 7 3 2 1 2 stream
>0
+ 1 0 1
- 2 0
commit

make-small, run: make 7 3 2 1 2 run | make 7 3 2 1 2 run --workers=2 --vertical=on
>0
open vertices 3 edges 2 kept 5 visits 20
batch 1 accepted added 1 removed 1 edges 2 kept 6 visits 40
total 0 813375
end accepted 1 refused 0

make-small, cut-one: make 7 3 2 1 2 run --show=all --cut=1
>0
open vertices 3 edges 2 kept 3 visits 20
value 0 213750
value 1 213750
value 2 150000
batch 1 accepted added 1 removed 1 edges 2 kept 3 visits 6
set 0 385875
set 1 277500
total 0 813375
end accepted 1 refused 0

make-nothing: make 7 1 1 0 1 stream
>0

make, the largest seed: make 18446744073709551615 4 6 1 3 stream
>0
- 1 0
- 0 2
+ 0 2 1
commit

make, leading zeros: make 07 003 2 01 2 run --workers=064 --cut=010
>0
open vertices 3 edges 2 kept 5 visits 20
batch 1 accepted added 1 removed 1 edges 2 kept 6 visits 40
total 0 813375
end accepted 1 refused 0";

#[test]
fn commands_reply(rt: HostRuntime) -> Result<(), Fail> {
    try_rows(&rt, rt.alloc(), REPLIES)?;
    Ok(())
}

// Over a shelf and a sink that never fail.
#[test]
fn empty_files_make_a_short_text(rt: HostRuntime) -> Result<(), Fail> {
    let alloc = rt.alloc();
    let words = words_of(alloc, "run rank g s")?;
    let mut shelf = CalmShelf::new(alloc, 1);
    let mut out = CalmSink::new(alloc, 1);
    assert!(rt; bolt(&rt, alloc, &words, &mut shelf, &mut out, &OpenGate) == 0);
    let text = "open vertices 0 edges 0 kept 0 visits 0\ntotal 0 0\nend accepted 0 refused 0\n";
    assert!(rt; out.written() == text.as_bytes());
    Ok(())
}
