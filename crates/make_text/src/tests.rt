// The texts of a small graph and of its stream, drawn by hand.
use crate::{graph_text_of, stream_text_of};
use bolt_make::make;
use std::test::Fail;

#[test]
fn small_texts(rt: HostRuntime) -> Result<(), Fail> {
    let alloc = rt.alloc();
    let made = make(alloc, 7, 3, 2, 1, 2)?;
    let graph = graph_text_of(alloc, &made)?;
    assert_eq!(rt; graph.as_slice(), b"vertices 3\n2 0 1\n2 1 1\n".as_slice());
    let stream = stream_text_of(alloc, &made)?;
    assert_eq!(rt; stream.as_slice(), b"+ 1 0 1\n- 2 0\ncommit\n".as_slice());
    Ok(())
}
