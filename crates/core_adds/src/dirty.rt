// The vertices that contribute otherwise than before.
ghost use Rattle.std.specs.Prelude.{◌≡◌, ◌<◌, ◌&&◌, length, not, IfOk};
ghost use Rattle.std.specs.Cmp.Lexicographic.{pointwise};
ghost use Rattle.std.specs.Ordering.{int_eq};
ghost use Rattle.bolt_base.specs.Differs.{attr_changed, degree_changed};
ghost use Rattle.bolt_base.specs.Graph.{vertices};
ghost use Rattle.run_model.specs.Rows.{at};
ghost use Rattle.run_model.specs.Steps.{dirty, is_dirty, reads_attr, reads_outdeg};
ghost use Rattle.core_adds.specs.Sides.{AreSides, seen};

use adjacency::Adjacency;
use bolt_base::{Lanes, Memory};
use std::alloc::Global;
use vertex_expr::{Program, mentions_attr, mentions_outdeg};

// Whether a lane of the contribution mentions the out-degree.
fn reads_outdeg(program: &Program) -> bool
    ensures { result ≡ reads_outdeg program.now }
{
    for expr in program.entries().contribute.as_slice() {
        if mentions_outdeg(expr) {
            return true;
        }
    }
    false
}

// Whether a lane of the contribution mentions the attribute.
fn reads_attr(program: &Program) -> bool
    ensures { result ≡ reads_attr program.now }
{
    for expr in program.entries().contribute.as_slice() {
        if mentions_attr(expr) {
            return true;
        }
    }
    false
}

// Whether a vertex has another value than it had.
fn has_moved(was: &[Lanes], now: &[Lanes], u: u32) -> bool
    requires was { u < length was.now }
    requires now { u < length now.now }
    ensures { result ≡ not (pointwise int_eq (at was.now u) (at now.now u)) }
{
    !was[u as usize].same(&now[u as usize])
}

// Whether a vertex has more or fewer out-edges than it had, where these are read.
fn has_other_degree<A: Adjacency>(program: &Program, old: &A, new: &A, u: u32) -> bool
    requires old { u < vertices (A.plain old.now) }
    requires new { u < vertices (A.plain new.now) }
    ensures { result ≡ (degree_changed (A.plain old.now) (A.plain new.now) u
        && reads_outdeg program.now) }
{
    old.out_degree(u) != new.out_degree(u) && reads_outdeg(program)
}

// Whether a vertex has another attribute than it had, where attributes are read.
fn has_other_attr<A: Adjacency>(program: &Program, old: &A, new: &A, u: u32) -> bool
    requires old { u < vertices (A.plain old.now) }
    requires new { u < vertices (A.plain new.now) }
    ensures { result ≡ (attr_changed (A.plain old.now) (A.plain new.now) u
        && reads_attr program.now) }
{
    old.attr(u) != new.attr(u) && reads_attr(program)
}

// Whether an old vertex contributes otherwise than before.
fn is_dirty<A: Adjacency>(
    program: &Program,
    old: &A,
    new: &A,
    was: &[Lanes],
    now: &[Lanes],
    u: u32,
) -> bool
    requires sides { AreSides program.now
        (seen (A.plain old.now) (A.plain new.now) was.now now.now) }
    requires vertex { u < vertices (A.plain old.now) }
    ensures { result ≡ is_dirty program.now
        (seen (A.plain old.now) (A.plain new.now) was.now now.now) u }
{
    has_moved(was, now, u)
        || has_other_degree(program, old, new, u)
        || has_other_attr(program, old, new, u)
}

/// The dirty vertices, rising.
pub(crate) fn dirty_vertices<A: Adjacency>(
    alloc: Global,
    program: &Program,
    old: &A,
    new: &A,
    was: &[Lanes],
    now: &[Lanes],
) -> Result<Vec<u32>, Memory>
    requires { AreSides program.now (seen (A.plain old.now) (A.plain new.now) was.now now.now) }
    ensures { IfOk result (λ us. us.items
        ≡ dirty program.now (seen (A.plain old.now) (A.plain new.now) was.now now.now)) }
{
    let mut us = Vec::new(alloc);
    for u in 0..old.vertices() {
        if is_dirty(program, old, new, was, now, u) {
            us.push(u)?;
        }
    }
    Ok(us)
}
