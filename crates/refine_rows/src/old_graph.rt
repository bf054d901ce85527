// The graph before a change, which is no longer there when the program runs.
ghost use Rattle.bolt_base.specs.Graph.{Graph};
ghost use Rattle.refine_rows.specs.Over.{no_graph};

use std::marker::Brand;

/// Tells proofs the graph before a change. A caller with `Brand` picks it.
pub trait OldGraph {
    /// The graph.
    ghost graph: { Graph };
}

impl OldGraph for Brand {
    ghost graph = { no_graph };
}
