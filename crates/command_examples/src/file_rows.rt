// Rows of programs in files, of one round and more.
pub const TWO_ROUNDS: &str =
    "cut-one: run file:p h s | run file:p h s --workers=1 | run file:p h s --workers=3\
    | run file:p h s --workers=64
<p = rank
program rank2
rounds 2
<h
0 1
1 2
2 0
0 2
<s
- 0 2
commit
>0
open vertices 3 edges 4 kept 5 visits 8
value 0 1361250
value 1 575000
value 2 1063750
batch 1 accepted added 0 removed 1 edges 3 kept 3 visits 6
set 0 1000000
set 1 1000000
set 2 1000000
total 0 3000000
end accepted 1 refused 0

cut-one-short-cut: run file:p h s --cut=1 | run file:p h s --workers=64 --cut=1\
    | run file:p h s --workers=3 --cut=1
<p = rank
program rank2
rounds 2
<h
0 1
1 2
2 0
0 2
<s
- 0 2
commit
>0
open vertices 3 edges 4 kept 3 visits 8
value 0 1361250
value 1 575000
value 2 1063750
batch 1 accepted added 0 removed 1 edges 3 kept 3 visits 2
set 0 1000000
set 1 1000000
set 2 1000000
total 0 3000000
end accepted 1 refused 0

rank2-open: run file:p h e
<p = rank
rounds 2
<h
0 1
1 2
2 0
0 2
<e
>0
open vertices 3 edges 4 kept 5 visits 8
value 0 1361250
value 1 575000
value 2 1063750
total 0 3000000
end accepted 0 refused 0

once-rank2: once file:p h | once file:p h --workers=64
<p = rank
rounds 2
<h
0 1
1 2
2 0
0 2
>0
once vertices 3 edges 4 visits 8
value 0 1361250
value 1 575000
value 2 1063750
total 0 3000000

once-without-values: once file:p h --show=none --workers=2
<p = rank
rounds 2
<h
0 1
1 2
2 0
0 2
>0
once vertices 3 edges 4 visits 8
total 0 3000000

edge-comes-back: run file:p h s --show=none
<p = rank
rounds 2
<h
0 1
1 2
2 0
0 2
<s
- 0 1
+ 0 1
commit
- 0 1
+ 0 1 2
commit
>0
open vertices 3 edges 4 kept 5 visits 8
batch 1 accepted added 0 removed 0 edges 4 kept 5 visits 0
batch 2 accepted added 1 removed 1 edges 4 kept 5 visits 4
total 0 3000000
end accepted 2 refused 0

empty-batch: run file:p h s --show=none
<p = rank
rounds 2
<h
0 1
1 2
2 0
0 2
<s
commit
>0
open vertices 3 edges 4 kept 5 visits 8
batch 1 accepted added 0 removed 0 edges 4 kept 5 visits 0
total 0 3000000
end accepted 1 refused 0

empty-batch-short-cut: run file:p h s --show=none --cut=1
<p = rank
rounds 2
<h
0 1
1 2
2 0
0 2
<s
commit
>0
open vertices 3 edges 4 kept 3 visits 8
batch 1 accepted added 0 removed 0 edges 4 kept 3 visits 2
total 0 3000000
end accepted 1 refused 0

edge-list-as-found: run file:p g e
<p = rank
rounds 2
<g
# nodes 4\r
0\t1\r
1\t2\r
\r
2\t0\r
3\t0 # late$
<e
>0
open vertices 4 edges 4 kept 6 visits 8
value 0 1127500
value 1 1722500
value 2 1000000
value 3 150000
total 0 4000000
end accepted 0 refused 0

edge-list-as-found, a comment of 256 bytes: run file:p g s --show=none
<p = rank
rounds 2
<g
0 1
1 2
2 0
3 0
<s
#xxxxxxxxxxxxxxxxxxxxxxxxxxxxxxxxxxxxxxxxxxxxxxxxxxxxxxxxxxxxxxxxxxxxxxxxxxxxxxxx\
    xxxxxxxxxxxxxxxxxxxxxxxxxxxxxxxxxxxxxxxxxxxxxxxxxxxxxxxxxxxxxxxxxxxxxxxxxxxxxxxx\
    xxxxxxxxxxxxxxxxxxxxxxxxxxxxxxxxxxxxxxxxxxxxxxxxxxxxxxxxxxxxxxxxxxxxxxxxxxxxxxxx\
    xxxxxxxxxxxxxxx
+ 0 2
commit
>1
open vertices 4 edges 4 kept 6 visits 8
batch 1 refused line 1 syntax
total 0 4000000
end accepted 0 refused 1

edge-list-as-found, a comment of 255 bytes: run file:p g s --show=none --workers=02
<p = rank
rounds 2
<g
0 1
1 2
2 0
3 0
<s
#xxxxxxxxxxxxxxxxxxxxxxxxxxxxxxxxxxxxxxxxxxxxxxxxxxxxxxxxxxxxxxxxxxxxxxxxxxxxxxxx\
    xxxxxxxxxxxxxxxxxxxxxxxxxxxxxxxxxxxxxxxxxxxxxxxxxxxxxxxxxxxxxxxxxxxxxxxxxxxxxxxx\
    xxxxxxxxxxxxxxxxxxxxxxxxxxxxxxxxxxxxxxxxxxxxxxxxxxxxxxxxxxxxxxxxxxxxxxxxxxxxxxxx\
    xxxxxxxxxxxxxx
+ 0 2
commit
>0
open vertices 4 edges 4 kept 6 visits 8
batch 1 accepted added 1 removed 0 edges 5 kept 6 visits 8
total 0 4000000
end accepted 1 refused 0";
