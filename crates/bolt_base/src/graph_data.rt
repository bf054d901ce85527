// A graph as plain lists.
ghost use Rattle.std.specs.Prelude.{◌≡◌, IfOk};
ghost use Rattle.bolt_base.specs.Plain.{AreApart, graph_of};

use crate::edge::Edge;
use crate::items::{AttrList, EdgeList};
use crate::memory::Memory;
use std::alloc::Global;
use std::marker::Model;

/// A graph as a list of attributes, one for each vertex, and a list of edges in any order, no two
/// with the same ends.
#[derive(Debug, Drop)]
pub struct GraphData {
    attrs: AttrList,
    edges: EdgeList,
}

impl Model for GraphData {
    ghost use Rattle.bolt_base.specs.Graph.{Graph};
    ghost use Rattle.bolt_base.specs.GraphCode.{coded_graph};
    ghost use Rattle.bolt_base.specs.Plain.{AreApart, graph_of};

    ghost Value = { Graph };

    ghost coded = { coded_graph };

    ghost view = { λ g. graph_of g.attrs g.edges };

    ghost invariant = { λ g. AreApart g.edges };
}

impl GraphData {
    /// The graph with these attributes and edges.
    pub fn new(attrs: AttrList, edges: EdgeList) -> GraphData
        requires apart { AreApart edges }
        ensures graph { result ≡ graph_of attrs edges }
    {
        GraphData { attrs, edges }
    }

    /// The attributes, one for each vertex.
    pub fn attrs(&self) -> &[i64]
        ensures attrs { result.now ≡ self.now.attrs }
    {
        self.attrs.as_slice()
    }

    /// The edges, in the order in which they were given.
    pub fn edges(&self) -> &[Edge]
        ensures graph { graph_of self.now.attrs result.now ≡ self.now }
        ensures apart { AreApart result.now }
    {
        self.edges.as_slice()
    }

    /// An equal graph.
    pub fn copy(&self, alloc: Global) -> Result<GraphData, Memory>
        ensures equal { IfOk result (λ copy. copy ≡ self.now) }
    {
        let attrs = self.attrs.copy(alloc)?;
        let edges = self.edges.copy(alloc)?;
        Ok(GraphData { attrs, edges })
    }
}
