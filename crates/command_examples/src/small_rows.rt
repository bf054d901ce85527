// Rows of small programs in files, each a change of another one.
pub const SMALL_PROGRAMS: &str = "shift-and-clip, shift: run file:p g e
<p = base
rounds 4
init 0 attr
contribute 0 val[0]
<g
attr 0 5
attr 1 7
attr 2 7
attr 3 7
attr 4 7
0 1
1 2
2 3
3 4
<e
>0
open vertices 5 edges 4 kept 14 visits 16
value 0 0
value 1 0
value 2 0
value 3 0
value 4 5
total 0 5
end accepted 0 refused 0

shift-and-clip, nothing pruned: run file:p g e --show=none --vertical=off
<p = base
rounds 4
init 0 attr
contribute 0 val[0]
<g
attr 0 5
attr 1 7
attr 2 7
attr 3 7
attr 4 7
0 1
1 2
2 3
3 4
<e
>0
open vertices 5 edges 4 kept 20 visits 16
total 0 5
end accepted 0 refused 0

shift-and-clip, clip: run file:p g e
<p = base
rounds 2
init 0 attr
contribute 0 val[0]
apply 0 min(agg[0], 6)
<g
attr 0 5
attr 1 7
attr 2 7
attr 3 7
attr 4 7
0 1
1 2
2 3
3 4
<e
>0
open vertices 5 edges 4 kept 9 visits 8
value 0 0
value 1 0
value 2 5
value 3 6
value 4 6
total 0 17
end accepted 0 refused 0

attribute-edits: run file:p g s
<p = base
rounds 4
init 0 attr
contribute 0 val[0]
<g
attr 0 5
attr 1 7
attr 2 7
attr 3 7
attr 4 7
0 1
1 2
2 3
3 4
<s
v 0 9
commit
v 0 9
commit
v 0 101
commit
v 6 1
commit
>1
open vertices 5 edges 4 kept 14 visits 16
value 0 0
value 1 0
value 2 0
value 3 0
value 4 5
batch 1 accepted added 0 removed 0 edges 4 kept 14 visits 4
set 4 9
batch 2 accepted added 0 removed 0 edges 4 kept 14 visits 0
batch 3 refused line 5 attribute
batch 4 refused line 7 vertex
total 0 9
end accepted 2 refused 2

attribute-and-cut: run file:p g s
<p = base
contribute 0 attr
<g
0 1
attr 0 3
<s
v 0 4
commit
v 0 8
- 0 1
commit
>0
open vertices 2 edges 1 kept 1 visits 1
value 0 0
value 1 3
batch 1 accepted added 0 removed 0 edges 1 kept 1 visits 1
set 1 4
batch 2 accepted added 0 removed 1 edges 0 kept 0 visits 1
set 1 0
total 0 0
end accepted 2 refused 0

refused-in-the-middle: run file:p g s
<p = base
degree 100
<g
vertices 8
0 1
1 2
2 0
<s
# first
+ 3 4
commit
# second
+ 4 5
- 0 1
- 5 6
commit
+ 4 5
commit
>1
open vertices 8 edges 3 kept 3 visits 3
value 0 1
value 1 1
value 2 1
value 3 0
value 4 0
value 5 0
value 6 0
value 7 0
batch 1 accepted added 1 removed 0 edges 4 kept 4 visits 1
set 4 1
batch 2 refused line 7 absent
batch 3 accepted added 1 removed 0 edges 5 kept 5 visits 1
set 5 1
total 0 5
end accepted 2 refused 1

degree-at-limit: run file:p g s --show=none
<p = base
degree 2
<g
vertices 4
0 1
2 1
<s
+ 3 1
- 0 1
commit
- 0 1
+ 3 1
commit
>1
open vertices 4 edges 2 kept 1 visits 2
batch 1 refused line 1 degree
batch 2 accepted added 1 removed 1 edges 2 kept 1 visits 2
total 0 2
end accepted 1 refused 1

unfinished-batch: run file:p g s --show=none
<p = base
degree 100
<g
0 1
<s
+ 1 0
commit
# tail
- 0 1
>1
open vertices 2 edges 1 kept 1 visits 1
batch 1 accepted added 1 removed 0 edges 2 kept 2 visits 1
batch 2 refused line 4 unfinished
total 0 2
end accepted 1 refused 1

vertices-added: run file:p g s
<p = base
degree 100
<g
vertices 2
0 1
<s
v 2 7
+ 0 2
+ 2 1
commit
+ 3 0
v 3 0
commit
v 3 0
commit
v 5 0
commit
>1
open vertices 2 edges 1 kept 1 visits 1
value 0 0
value 1 1
batch 1 accepted added 2 removed 0 edges 3 kept 2 visits 2
set 1 2
set 2 1
batch 2 refused line 5 vertex
batch 3 accepted added 0 removed 0 edges 3 kept 2 visits 0
set 3 0
batch 4 refused line 10 vertex
total 0 3
end accepted 2 refused 2

room-at-program-limit: run file:p g s --show=none
<p = base
vertices 3
degree 100
<g
vertices 2
0 1
<s
v 2 0
v 3 0
commit
>1
open vertices 2 edges 1 kept 1 visits 1
batch 1 refused line 2 vertex
total 0 1
end accepted 0 refused 1";
