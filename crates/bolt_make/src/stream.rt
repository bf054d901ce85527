// The batches of a stream.
ghost use Rattle.std.specs.Prelude.{◌≡◌, ◌≤◌, length, IfOk, OnOk};
ghost use Rattle.bolt_base.specs.Edits.{after};
ghost use Rattle.bolt_make.specs.Generator.{edit_pair as edit_pair_of, after_edit, edits_from};
ghost use Rattle.bolt_make.specs.Generator.{after_edits, batches_from};

use crate::draws::{Draws, Pair};
use crate::made_graph::MadeGraph;
use bolt_base::{BatchList, EditList, Memory};
use std::alloc::Global;

// The pair of an edit, whose number in its batch is counted from 0.
fn edit_pair(draws: &mut Draws, vertices: u32, pairs: &[Pair], number: u32) -> Pair
    requires vertices { 1 ≤ vertices }
    requires pairs { 1 ≤ length pairs.now }
    ensures pair { result ≡ edit_pair_of vertices pairs.now number draws.old.last }
    ensures last { draws.new.last ≡ after_edit number draws.old.last }
{
    if number % 2 == 0 {
        draws.pair(vertices)
    } else {
        pairs[draws.draw() as usize % pairs.len()]
    }
}

// The next batch, of so many edits. They are made on the graph.
fn draw_batch(
    alloc: Global,
    draws: &mut Draws,
    graph: &mut MadeGraph,
    vertices: u32,
    pairs: &[Pair],
    size: u32,
) -> Result<EditList, Memory>
    requires vertices { 1 ≤ vertices }
    requires pairs { 1 ≤ length pairs.now }
    ensures edits { IfOk result (λ edits.
        edits ≡ edits_from vertices pairs.now size 0 graph.old draws.old.last) }
    ensures graph { OnOk result (graph.new
        ≡ after graph.old (edits_from vertices pairs.now size 0 graph.old draws.old.last)) }
    ensures last { OnOk result (draws.new.last ≡ after_edits size 0 draws.old.last) }
{
    let mut edits = EditList::new(alloc);
    for number in 0..size {
        let pair = edit_pair(draws, vertices, pairs, number);
        let edit = graph.turn(pair)?;
        edits.push(edit)?;
    }
    Ok(edits)
}

/// So many batches of a size, the first on this graph. All are made on it.
pub fn draw_batches(
    alloc: Global,
    draws: &mut Draws,
    graph: &mut MadeGraph,
    vertices: u32,
    pairs: &[Pair],
    size: u32,
    count: u32,
) -> Result<BatchList, Memory>
    requires vertices { 1 ≤ vertices }
    requires pairs { 1 ≤ length pairs.now }
    ensures { IfOk result (λ batches.
        batches ≡ batches_from vertices pairs.now size count graph.old draws.old.last) }
{
    let mut batches = BatchList::new(alloc);
    for _batch in 0..count {
        batches.push(draw_batch(alloc, draws, graph, vertices, pairs, size)?)?;
    }
    Ok(batches)
}
