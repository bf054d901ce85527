// The edges of a graph, found by their ends.
ghost use Rattle.std.specs.Prelude.{◌≡◌, is_none, map as map_edges, IfOk, OnOk};
ghost use Rattle.std.specs.List.Sorted.{IsStrictlySortedBy};
ghost use Rattle.bolt_base.specs.Graph.{edge, pair_cmp};
ghost use Rattle.std.specs.FinMap as finite;
ghost use Rattle.bolt_base.specs.Plain.{AreApart, entry};

use bolt_base::{Edge, EdgeList, Memory};
use std::alloc::Global;
use std::collections::BTreeMap;
use std::marker::Model;

/// The weights of edges, by source and then by destination.
#[derive(Drop)]
pub struct WeightMap {
    map: BTreeMap<(u32, u32), i64>,
}

impl Model for WeightMap {
    ghost use Rattle.std.specs.FinMap as finite;
    ghost use Rattle.std.specs.Coded.{coded×, coded_ℕ, coded_ℤ};
    ghost use Rattle.bolt_base.specs.Graph.{Weights};

    ghost Value = { Weights };

    ghost coded = { finite.code (coded× coded_ℕ coded_ℕ) coded_ℤ };

    ghost view = { λ m. finite.from_entries m.map.entries };
}

/// The edges of a map from source and destination to weight, in its order. An error is want of
/// memory.
pub fn edges_in(alloc: Global, map: &BTreeMap<(u32, u32), i64>) -> Result<EdgeList, Memory>
    ensures edges { IfOk result (λ edges. map_edges edge map.now.entries ≡ edges) }
    ensures apart { IfOk result (λ edges. AreApart edges) }
    ensures ordered { IsStrictlySortedBy pair_cmp (map_edges (λ e. e.0) map.now.entries) }
{
    let mut edges = EdgeList::new(alloc);
    let entries = map.iter();
    for ((src, dst), weight) in entries {
        edges.push(Edge {
            src: *src,
            dst: *dst,
            weight: *weight,
        })?;
    }
    Ok(edges)
}

impl WeightMap {
    pub fn new(alloc: Global) -> WeightMap
        ensures { result ≡ finite.empty }
    {
        WeightMap {
            map: BTreeMap::new(alloc),
        }
    }

    /// Puts the edge in, and answers whether no edge with its ends was there.
    pub fn put(&mut self, edge: Edge) -> Result<bool, Memory>
        ensures fresh { IfOk result (λ fresh. fresh
            ≡ is_none (finite.get self.old (edge.src, edge.dst))) }
        ensures put { OnOk result (self.new
            ≡ finite.insert self.old (edge.src, edge.dst) edge.weight) }
    {
        let old = self.map.insert((edge.src, edge.dst), edge.weight)?;
        Ok(old.is_none())
    }

    /// The edges as a list, of which no two have the same ends.
    pub fn into_edges(self, alloc: Global) -> Result<EdgeList, Memory>
        ensures edges { IfOk result (λ edges. finite.from_entries (map_edges entry edges) ≡ self) }
        ensures apart { IfOk result (λ edges. AreApart edges) }
        ensures sorted { IfOk result (λ edges. edges ≡ map_edges edge (finite.entries self)) }
    {
        let edges = edges_in(alloc, &self.map)?;
        Ok(edges)
    }
}
