// A graph of which pairs are joined and cut.
ghost use Rattle.std.specs.Prelude.{◌≡◌, pos, replicate, IfOk, OnOk};
ghost use Rattle.bolt_base.specs.Edits.{edited, has_edge as has_edge_of};
ghost use Rattle.bolt_make.specs.Generator.{bare, added, with_pair, joined, turned};

use crate::draws::Pair;
use bolt_base::{AttrList, Edge, Edit, GraphData, Memory};
use graph_text::edges_in;
use std::alloc::Global;
use std::collections::BTreeMap;
use std::marker::Model;

/// A graph whose attributes are 0 and whose edges have the weight 1.
#[derive(Drop)]
pub struct MadeGraph {
    vertices: u32,
    weights: BTreeMap<(u32, u32), i64>,
}

impl Model for MadeGraph {
    ghost use Rattle.std.specs.Prelude.{pos, replicate};
    ghost use Rattle.std.specs.FinMap as finite;
    ghost use Rattle.bolt_base.specs.Graph.{Graph};
    ghost use Rattle.bolt_base.specs.GraphCode.{coded_graph};

    ghost Value = { Graph };

    ghost coded = { coded_graph };

    ghost view = { λ g. record {
      attrs = replicate g.vertices (pos 0);
      weights = finite.from_entries g.weights.entries;
    } };
}

impl MadeGraph {
    /// So many vertices, and no edge.
    pub fn new(alloc: Global, vertices: u32) -> MadeGraph
        ensures { result ≡ bare vertices }
    {
        MadeGraph {
            vertices,
            weights: BTreeMap::new(alloc),
        }
    }

    // Whether a pair has an edge.
    fn has_edge(&self, pair: Pair) -> bool
        ensures { result ≡ has_edge_of self.now pair.0 pair.1 }
    {
        self.weights.contains_key(&pair)
    }

    // Gives a pair an edge.
    fn join(&mut self, pair: Pair) -> Result<(), Memory>
        ensures { OnOk result (self.new ≡ edited self.old (added pair)) }
    {
        self.weights.insert(pair, 1)?;
        Ok(())
    }

    // Cuts the edge of a pair, if there is one.
    fn cut(&mut self, pair: Pair)
        ensures { self.new ≡ edited self.old (Edit.Cut pair.0 pair.1) }
    {
        let _weight = self.weights.remove(&pair);
    }

    // Gives a pair an edge, unless it has one.
    fn put(&mut self, pair: Pair) -> Result<(), Memory>
        ensures { OnOk result (self.new ≡ with_pair self.old pair) }
    {
        if self.has_edge(pair) {
            Ok(())
        } else {
            self.join(pair)
        }
    }

    /// Gives each pair an edge, unless it has one.
    pub fn join_all(&mut self, pairs: &[Pair]) -> Result<(), Memory>
        ensures { OnOk result (self.new ≡ joined self.old pairs.now) }
    {
        for pair in pairs {
            self.put(*pair)?;
        }
        Ok(())
    }

    /// Cuts a pair if it has an edge, and else adds it; answers the edit.
    pub fn turn(&mut self, pair: Pair) -> Result<Edit, Memory>
        ensures edit { IfOk result (λ edit. edit ≡ turned self.old pair) }
        ensures graph { IfOk result (λ edit. self.new ≡ edited self.old edit) }
    {
        let (src, dst) = pair;
        if self.has_edge(pair) {
            self.cut(pair);
            Ok(Edit::Cut { src, dst })
        } else {
            self.join(pair)?;
            Ok(Edit::Add(Edge {
                src,
                dst,
                weight: 1,
            }))
        }
    }

    /// The graph as plain lists.
    pub fn plain(&self, alloc: Global) -> Result<GraphData, Memory>
        ensures { IfOk result (λ graph. graph ≡ self.now) }
    {
        let edges = edges_in(alloc, &self.weights)?;
        let attrs = vec![in alloc; 0i64; self.vertices as usize]?;
        Ok(GraphData::new(AttrList::from_vec(attrs), edges))
    }
}
