// What changed from a graph to another one.
ghost use Rattle.std.specs.Prelude.{◌≡◌, not, filter, IfOk};
ghost use Rattle.bolt_base.specs.LawsOfChange.{edge_stays};

use crate::edges::found;
use adjacency::Metered;
use bolt_base::{Edge, Memory, VisitMeter};
use std::alloc::Global;

// Whether both graphs have an edge at the ends of this one, with one weight.
fn is_stayed<A: Metered<VisitMeter>>(old: &A, new: &A, e: Edge) -> bool
    ensures { result ≡ edge_stays (A.plain old.now) (A.plain new.now) e }
{
    match found(old, e.src, e.dst) {
        Some(was) => match found(new, e.src, e.dst) {
            Some(now) => was.weight == now.weight,
            None => false,
        },
        None => false,
    }
}

/// Those of the edges that stay.
pub(crate) fn stayed_of<A: Metered<VisitMeter>>(
    alloc: Global,
    old: &A,
    new: &A,
    edges: &[Edge],
) -> Result<Vec<Edge>, Memory>
    ensures { IfOk result (λ es.
        es.items ≡ filter (edge_stays (A.plain old.now) (A.plain new.now)) edges.now) }
{
    let mut stayed = Vec::new(alloc);
    for e in edges {
        if is_stayed(old, new, *e) {
            stayed.push(*e)?;
        }
    }
    Ok(stayed)
}

/// Those of the edges that don't stay.
pub(crate) fn changed_of<A: Metered<VisitMeter>>(
    alloc: Global,
    old: &A,
    new: &A,
    edges: &[Edge],
) -> Result<Vec<Edge>, Memory>
    ensures { IfOk result (λ es. es.items
        ≡ filter (λ e. not (edge_stays (A.plain old.now) (A.plain new.now) e)) edges.now) }
{
    let mut changed = Vec::new(alloc);
    for e in edges {
        if !is_stayed(old, new, *e) {
            changed.push(*e)?;
        }
    }
    Ok(changed)
}
