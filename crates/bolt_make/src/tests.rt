// Made graphs and streams, drawn by hand.
use crate::draws::Draws;
use crate::make;
use graph_text::{print_batch, print_graph};
use std::test::Fail;

#[test]
fn draws_are_known(rt: HostRuntime) -> Result<(), Fail> {
    let mut draws = Draws::new(7);
    for number in [
        386_168,
        1_460_846_352,
        1_741_224_500,
        285_379_567,
        1_596_966_799,
        1_111_361_817,
        257_282_700,
    ] {
        assert_eq!(rt; draws.draw(), number);
    }
    Ok(())
}

#[test]
fn small_graph_and_stream(rt: HostRuntime) -> Result<(), Fail> {
    let alloc = rt.alloc();
    let made = make(alloc, 7, 3, 2, 1, 2)?;
    let graph = print_graph(alloc, &made.graph)?;
    assert_eq!(rt; graph.as_slice(), b"vertices 3\n2 0 1\n2 1 1\n".as_slice());
    assert_eq!(rt; made.batches.len(), 1);
    for edits in made.batches.as_slice() {
        let batch = print_batch(alloc, edits.as_slice())?;
        assert_eq!(rt; batch.as_slice(), b"+ 1 0 1\n- 2 0\ncommit\n".as_slice());
    }
    Ok(())
}
