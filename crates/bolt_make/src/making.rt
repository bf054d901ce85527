// Graphs and streams that a seed decides.
ghost use Rattle.std.specs.Prelude.{◌≡◌, ◌+◌, ◌*◌, ◌≤◌, length, IfOk};
ghost use Rattle.std.specs.List.{All};
ghost use Rattle.bolt_base.specs.Graph.{IsGood};
ghost use Rattle.bolt_base.specs.declared.limits.Limits.{Limits};
ghost use Rattle.bolt_make.specs.Generator.{made_graph, made_batches};
ghost use Rattle.bolt_make.specs.Made.{AreWide};

use crate::draws::{Draws, draw_pairs};
use crate::made_graph::MadeGraph;
use crate::stream::draw_batches;
use bolt_base::{BatchList, GraphData, Memory};
use std::alloc::Global;

/// The most vertices of a made graph.
pub const MOST_VERTICES: u32 = 1_000_000;

/// The most pairs that are drawn for a made graph.
pub const MOST_PAIRS: u32 = 4_000_000;

/// The most batches of a made stream.
pub const MOST_BATCHES: u32 = 100_000;

/// The most edits of a batch of a made stream.
pub const MOST_EDITS: u32 = 1_000_000;

/// The most pairs of a made graph and edits of its stream together.
pub const MOST_CHANGES: u64 = 8_000_000;

/// A graph, and a stream of batches of edits that are good on it one after another.
#[derive(Drop)]
pub struct Made {
    pub graph: GraphData,
    pub batches: BatchList,
}

/// The graph and the stream of a seed.
///
/// The graph has so many vertices, and an edge of weight 1 for each of the pairs that are drawn.
/// Each batch of the stream has so many edits, of which the even ones, counted from 0, draw a pair
/// of vertices, and the odd ones draw one of the graph's first pairs. An edit cuts its pair if that
/// has an edge then, and else adds it.
pub fn make(
    alloc: Global,
    seed: u64,
    vertices: u32,
    pairs: u32,
    batches: u32,
    edits: u32,
) -> Result<Made, Memory>
    requires vertices { (1 ≤ vertices) × (vertices ≤ MOST_VERTICES) }
    requires pairs { (1 ≤ pairs) × (pairs ≤ MOST_PAIRS) }
    requires batches { batches ≤ MOST_BATCHES }
    requires edits { (1 ≤ edits) × (edits ≤ MOST_EDITS) }
    requires changes { pairs + batches * edits ≤ MOST_CHANGES }
    ensures graph { IfOk result (λ made. made.graph ≡ made_graph seed vertices pairs) }
    ensures batches { IfOk result (λ made.
        made.batches ≡ made_batches seed vertices pairs batches edits) }
    ensures good { (l : Limits) → AreWide l vertices pairs
        → IfOk result (λ made. IsGood l made.graph) }
    ensures sizes { IfOk result (λ made. All (λ batch. length batch ≡ edits) made.batches) }
{
    let mut draws = Draws::new(seed);
    let drawn = draw_pairs(alloc, &mut draws, vertices, pairs)?;
    let mut graph = MadeGraph::new(alloc, vertices);
    graph.join_all(&drawn)?;
    let plain = graph.plain(alloc)?;
    let batches = draw_batches(
        alloc, &mut draws, &mut graph, vertices, &drawn, edits, batches,
    )?;
    Ok(Made {
        graph: plain,
        batches,
    })
}
