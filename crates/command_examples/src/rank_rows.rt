// Rows of the shipped program `rank`. The numbers were worked out by hand or by another program.
pub const RANKS: &str = "triangle-cut: run rank g s | run rank g s --cut=64
<g
0 1
1 2
2 0
<s
- 2 0
commit
>0
open vertices 3 edges 3 kept 3 visits 30
value 0 1000000
value 1 1000000
value 2 1000000
batch 1 accepted added 0 removed 1 edges 2 kept 6 visits 27
set 0 150000
set 1 277500
set 2 385875
total 0 813375
end accepted 1 refused 0

triangle-cut-short-cut: run rank g s --cut=3
<g
0 1
1 2
2 0
<s
- 2 0
commit
>0
open vertices 3 edges 3 kept 3 visits 30
value 0 1000000
value 1 1000000
value 2 1000000
batch 1 accepted added 0 removed 1 edges 2 kept 6 visits 6
set 0 150000
set 1 277500
set 2 385875
total 0 813375
end accepted 1 refused 0

triangle-cut-shortest-cut: run rank g s --cut=1
<g
0 1
1 2
2 0
<s
- 2 0
commit
>0
open vertices 3 edges 3 kept 3 visits 30
value 0 1000000
value 1 1000000
value 2 1000000
batch 1 accepted added 0 removed 1 edges 2 kept 3 visits 3
set 0 150000
set 1 277500
set 2 385875
total 0 813375
end accepted 1 refused 0

triangle-as-typed: run rank g s
<g
# triangle\r
0\t1 1\r
1  2\r
\r
2 0 # back$
<s
- 2 0
commit$
>0
open vertices 3 edges 3 kept 3 visits 30
value 0 1000000
value 1 1000000
value 2 1000000
batch 1 accepted added 0 removed 1 edges 2 kept 6 visits 27
set 0 150000
set 1 277500
set 2 385875
total 0 813375
end accepted 1 refused 0

six-refusals: run rank g s
<g
0 1
1 2
2 0
<s
+ 0 3
commit
+ 0 1
commit
- 0 2
commit
+ 0 2 1000001
commit
* 1 2
commit
- 0 1
>1
open vertices 3 edges 3 kept 3 visits 30
value 0 1000000
value 1 1000000
value 2 1000000
batch 1 refused line 1 vertex
batch 2 refused line 3 present
batch 3 refused line 5 absent
batch 4 refused line 7 weight
batch 5 refused line 9 syntax
batch 6 refused line 11 unfinished
total 0 3000000
end accepted 0 refused 6

first-vertex: run rank e s
<e
<s
v 0 0
commit
>0
open vertices 0 edges 0 kept 0 visits 0
batch 1 accepted added 0 removed 0 edges 0 kept 1 visits 0
set 0 150000
total 0 150000
end accepted 1 refused 0

empty-graph: run rank e e
<e
>0
open vertices 0 edges 0 kept 0 visits 0
total 0 0
end accepted 0 refused 0

no-stream: run rank g nofile
<g
0 1
>5
open vertices 2 edges 1 kept 3 visits 10
value 0 150000
value 1 277500

labels-self-loop: run labels2 g s
<g
attr 0 1
attr 2 2
0 1 3
2 1 1
0 0 5
<s
- 0 0
commit
>0
open vertices 3 edges 3 kept 2 visits 30
value 0 1000000 0
value 1 750000 250000
value 2 0 1000000
batch 1 accepted added 0 removed 1 edges 2 kept 1 visits 10
total 0 1750000
total 1 1250000
end accepted 1 refused 0

wide-sums: run wide g s --workers=64
<g
0 1 9223372036854775807
1 0 -9223372036854775808
<s
- 0 1
+ 0 1 -9223372036854775808
- 1 0
+ 1 0 9223372036854775807
commit
>0
open vertices 2 edges 2 kept 2 visits 4
value 0 -9223372036854775808
value 1 9223372036854775807
batch 1 accepted added 2 removed 2 edges 2 kept 2 visits 10
set 0 9223372036854775807
set 1 -9223372036854775808
total 0 -1
end accepted 1 refused 0

dist-longer-way: run dist g s
<g
0 1 4
0 2 1
2 1 2
attr 0 1
<s
- 2 1
commit
>0
open vertices 3 edges 3 kept 4 visits 48
value 0 0
value 1 3
value 2 1
batch 1 accepted added 0 removed 1 edges 2 kept 3 visits 10
set 1 4
total 0 5
end accepted 1 refused 0

dist-short-cut: run dist g s --show=none --cut=2 --workers=2
<g
0 1 4
0 2 1
2 1 2
attr 0 1
<s
- 2 1
commit
>0
open vertices 3 edges 3 kept 4 visits 48
batch 1 accepted added 0 removed 1 edges 2 kept 3 visits 2
total 0 5
end accepted 1 refused 0";
