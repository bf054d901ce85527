// What a seed made, printed.
ghost use Rattle.std.specs.Prelude.{◌≡◌, IfOk};
ghost use Rattle.graph_text.specs.Printed.{graph_text};
ghost use Rattle.make_text.specs.Texts.{stream_text};

use bolt_base::{Bytes, Memory};
use bolt_make::Made;
use graph_text::{print_batch, print_graph};
use std::alloc::Global;

/// The printed form of the graph.
pub fn graph_text_of(alloc: Global, made: &Made) -> Result<Bytes, Memory>
    ensures { IfOk result (λ text. text ≡ graph_text made.now.graph) }
{
    print_graph(alloc, &made.graph)
}

/// The printed forms of the stream's batches, one after another.
pub fn stream_text_of(alloc: Global, made: &Made) -> Result<Bytes, Memory>
    ensures { IfOk result (λ text. text ≡ stream_text made.now.batches) }
{
    let mut text = Bytes::new(alloc);
    for batch in made.batches.as_slice() {
        let printed = print_batch(alloc, batch.as_slice())?;
        text.extend_from_slice(printed.as_slice())?;
    }
    Ok(text)
}
