// The places of the sources of changed edges.
ghost use Rattle.std.specs.Prelude.{◌≡◌, ◌<◌, ◌≤◌, ◌^◌, All, IfOk, length, map, slice_index_or};
ghost use Rattle.std.specs.List.{Contains};
ghost use Rattle.std.specs.List.Sorted.{IsNonDecreasing};
ghost use Rattle.refine_tasks.specs.Sides.{IsPlacedIn};

use crate::search::vertex_place;
use bolt_base::{Edge, Items, Memory};
use edge_map::{TaskEdge, TaskEdgeList};
use std::alloc::Global;

// The place of a vertex in a list that rises and has it.
fn place_of(us: &[u32], u: u32) -> u32
    requires rises { IsNonDecreasing us.now }
    requires few { length us.now ≤ 2 ^ 32 }
    requires there { Contains us.now u }
    ensures place { result < length us.now }
    ensures vertex { slice_index_or us.now result 0 ≡ u }
{
    match vertex_place(us, u) {
        Ok(place) | Err(place) => place as u32,
    }
}

/// Edges, each with the place of its source in a list that rises and has it.
pub(crate) fn placed(alloc: Global, us: &[u32], edges: &[Edge]) -> Result<TaskEdgeList, Memory>
    requires rises { IsNonDecreasing us.now }
    requires few { length us.now ≤ 2 ^ 32 }
    requires there { All (λ e. Contains us.now e.src) edges.now }
    ensures edges { IfOk result (λ xs. map (λ x. x.edge) xs ≡ edges.now) }
    ensures placed { IfOk result (λ xs. All (IsPlacedIn us.now) xs) }
{
    let mut tasks = Vec::with_capacity(alloc, edges.len())?;
    for &edge in edges {
        let source = place_of(us, edge.src);
        tasks.push(TaskEdge { source, edge })?;
    }
    Ok(Items::from_vec(tasks))
}
