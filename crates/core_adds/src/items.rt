// The additions of the items of an iteration.
ghost use Rattle.std.specs.Prelude.{◌≡◌, ◌++◌, map, All, IfOk, OnOk};
ghost use Rattle.bolt_base.specs.Change.{stayed};
ghost use Rattle.run_model.specs.Additions.{amounts_of};
ghost use Rattle.run_model.specs.Given.{IsBefore, IsEdge};
ghost use Rattle.run_model.specs.Rows.{contribution};
ghost use Rattle.core_adds.specs.Sides.{AreSides, added_gift, adds_by_item, change_adds};
ghost use Rattle.core_adds.specs.Sides.{removed_gift, seen};

use crate::addition::{AdditionList, PieceList};
use crate::changes::{changed_of, stayed_of};
use crate::dirty::dirty_vertices;
use crate::edges::edges_of;
use crate::gifts::{push_added, push_change, push_removed};
use adjacency::Metered;
use bolt_base::{Edge, Items, Lanes, Memory, VisitMeter};
use std::alloc::Global;
use vertex_expr::Program;

// Appends the additions of each removed edge.
fn push_each_removed<A: Metered<VisitMeter>>(
    alloc: Global,
    all: &mut PieceList,
    program: &Program,
    graph: &A,
    vals: &[Lanes],
    edges: &[Edge],
) -> Result<(), Memory>
    requires before { IsBefore program.now (A.plain graph.now) vals.now }
    requires edges { All (IsEdge program.now (A.plain graph.now)) edges.now }
    ensures { OnOk result (all.new ≡ all.old ++ map (λ e. amounts_of program.now
        (removed_gift (contribution program.now (A.plain graph.now) vals.now) e)) edges.now) }
{
    for e in edges {
        let mut list = Items::new(alloc);
        push_removed(&mut list, program, graph, vals, *e)?;
        all.push(list)?;
    }
    Ok(())
}

// Appends the additions of each added edge.
fn push_each_added<A: Metered<VisitMeter>>(
    alloc: Global,
    all: &mut PieceList,
    program: &Program,
    graph: &A,
    vals: &[Lanes],
    edges: &[Edge],
) -> Result<(), Memory>
    requires before { IsBefore program.now (A.plain graph.now) vals.now }
    requires edges { All (IsEdge program.now (A.plain graph.now)) edges.now }
    ensures { OnOk result (all.new ≡ all.old ++ map (λ e. amounts_of program.now
        (added_gift (contribution program.now (A.plain graph.now) vals.now) e)) edges.now) }
{
    for e in edges {
        let mut list = Items::new(alloc);
        push_added(&mut list, program, graph, vals, *e)?;
        all.push(list)?;
    }
    Ok(())
}

// The additions for the edges out of a vertex, of those that stayed.
fn changes_of<A: Metered<VisitMeter>>(
    alloc: Global,
    program: &Program,
    old: &A,
    new: &A,
    was: &[Lanes],
    now: &[Lanes],
    edges: &[Edge],
    u: u32,
) -> Result<AdditionList, Memory>
    requires sides { AreSides program.now
        (seen (A.plain old.now) (A.plain new.now) was.now now.now) }
    requires edges { edges.now ≡ stayed (A.plain old.now) (A.plain new.now) }
    ensures { IfOk result (λ list. list ≡ change_adds program.now
        (seen (A.plain old.now) (A.plain new.now) was.now now.now) edges.now u) }
{
    let mut list = Items::new(alloc);
    for e in edges {
        if e.src == u {
            push_change(&mut list, program, old, new, was, now, *e)?;
        }
    }
    Ok(list)
}

// Appends the additions of each dirty vertex.
fn push_each_dirty<A: Metered<VisitMeter>>(
    alloc: Global,
    all: &mut PieceList,
    program: &Program,
    old: &A,
    new: &A,
    was: &[Lanes],
    now: &[Lanes],
    edges: &[Edge],
    us: &[u32],
) -> Result<(), Memory>
    requires sides { AreSides program.now
        (seen (A.plain old.now) (A.plain new.now) was.now now.now) }
    requires edges { edges.now ≡ stayed (A.plain old.now) (A.plain new.now) }
    ensures { OnOk result (all.new ≡ all.old ++ map (change_adds program.now
        (seen (A.plain old.now) (A.plain new.now) was.now now.now) edges.now) us.now) }
{
    for u in us {
        let list = changes_of(alloc, program, old, new, was, now, edges, *u)?;
        all.push(list)?;
    }
    Ok(())
}

/// The additions of each item: the removed edges, the added ones, and the dirty vertices.
pub(crate) fn adds_by_item<A: Metered<VisitMeter>>(
    alloc: Global,
    program: &Program,
    old: &A,
    new: &A,
    was: &[Lanes],
    now: &[Lanes],
) -> Result<PieceList, Memory>
    requires sides { AreSides program.now
        (seen (A.plain old.now) (A.plain new.now) was.now now.now) }
    ensures { IfOk result (λ all. all ≡ adds_by_item program.now
        (seen (A.plain old.now) (A.plain new.now) was.now now.now)) }
{
    let old_edges = edges_of(alloc, program, old)?;
    let new_edges = edges_of(alloc, program, new)?;
    let removed = changed_of(alloc, old, new, &old_edges)?;
    let added = changed_of(alloc, old, new, &new_edges)?;
    let stayed = stayed_of(alloc, old, new, &new_edges)?;
    let us = dirty_vertices(alloc, program, old, new, was, now)?;
    let mut all = Items::new(alloc);
    push_each_removed(alloc, &mut all, program, old, was, &removed)?;
    push_each_added(alloc, &mut all, program, new, now, &added)?;
    push_each_dirty(alloc, &mut all, program, old, new, was, now, &stayed, &us)?;
    Ok(all)
}
