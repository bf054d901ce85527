// What is computed before the first addition.
ghost use Rattle.std.specs.Prelude.{◌≡◌, ℕ, ◌+◌, ◌*◌, ◌^◌, ◌<◌, ◌≤◌, length, drop, IfOk};
ghost use Rattle.std.specs.Prelude.{slice_index_or};
ghost use Rattle.std.specs.List.{list_any};
ghost use Rattle.vertex_expr.specs.Mentions.{mentions_weight};
ghost use Rattle.edge_map.specs.Walks.{from_source};
ghost use Rattle.edge_map.specs.Additions.{works, visits, visits_of};
ghost use Rattle.range_check.specs.Breaks.{IsAccepted};
ghost use Rattle.edge_map.specs.Plans.{AreSides, AreFit};
ghost use Rattle.edge_map.specs.declared.tasks.Sides.{Sides};

use crate::contributions::side;
use crate::tasks::{Sides, TaskEdge, Tasks, Work};
use bolt_base::Memory;
use std::alloc::Global;
use vertex_expr::Program;

// The place of the first added edge, from `next` on, of source `place` or a later one.
fn skip(added: &[TaskEdge], next: usize, place: usize) -> usize
    requires { next ≤ length added.now }
    ensures inside { result ≤ length added.now }
    ensures rest { drop result added.now ≡ from_source place (drop next added.now) }
{
    let mut at = next;
    while at < added.len() && (added[at].source as usize) < place {
        at += 1;
    }
    at
}

/// What each source contributes where no lane reads a weight.
pub(crate) fn sides_of(
    alloc: Global,
    program: &Program,
    tasks: &Tasks,
    by_edge: bool,
) -> Result<Vec<Sides>, Memory>
    requires safe { IsAccepted program.now }
    requires fit { AreFit program.now tasks.now }
    requires by_edge { by_edge ≡ list_any mentions_weight program.now.contribute }
    ensures long { IfOk result (λ sides. length sides.items ≡ length tasks.now.sources) }
    ensures sides { IfOk result (λ sides. (k : ℕ) (d : Sides) → k < length tasks.now.sources
        → AreSides program.now tasks.now k (slice_index_or sides.items k d)) }
{
    let sources = tasks.sources.as_slice();
    let added = tasks.added.as_slice();
    let mut sides = Vec::with_capacity(alloc, sources.len())?;
    let mut next = 0;
    for k in 0..sources.len() {
        let source = sources[k];
        next = skip(added, next, k);
        let was = side(
            program,
            by_edge,
            source.old,
            source.old_degree,
            source.old_attr,
            source.vertex,
        );
        let now = side(
            program,
            by_edge,
            source.new,
            source.new_degree,
            source.new_attr,
            source.vertex,
        );
        sides.push(Sides {
            was,
            now,
            first_added: next,
        })?;
    }
    Ok(sides)
}

/// All items of the tasks.
pub(crate) fn works_of(alloc: Global, tasks: &Tasks) -> Result<Vec<Work>, Memory>
    requires few { length tasks.now.sources < 2 ^ 32 }
    ensures works { IfOk result (λ all. all.items ≡ works tasks.now) }
{
    let edges = tasks.removed.len().saturating_add(tasks.added.len());
    let room = edges.saturating_add(tasks.sources.len());
    let mut all = Vec::with_capacity(alloc, room)?;
    for x in tasks.removed.as_slice() {
        all.push(Work::Removed(*x))?;
    }
    for y in tasks.added.as_slice() {
        all.push(Work::Added(*y))?;
    }
    let sources = tasks.sources.as_slice();
    for k in 0..sources.len() {
        if sources[k].dirty {
            all.push(Work::Dirty(k as u32))?;
        }
    }
    Ok(all)
}

// How many edges an item reads.
fn reads(tasks: &Tasks, work: Work) -> u64
    ensures { result ≡ visits tasks.now work }
{
    match work {
        Work::Removed(_) => 1,
        Work::Added(_) => 1,
        Work::Dirty(place) => match tasks.sources.as_slice().get(place as usize) {
            Some(source) => u64::from(source.new_degree),
            None => 0,
        },
    }
}

/// How many edges some items read.
pub(crate) fn all_reads(tasks: &Tasks, all: &[Work]) -> u64
    requires fits { visits_of tasks.now all.now < 2 ^ 64 }
    ensures { result ≡ visits_of tasks.now all.now }
{
    let mut visits = 0u64;
    for work in all {
        visits += reads(tasks, *work);
    }
    visits
}
