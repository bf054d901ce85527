// Three programs' texts: an accepted one, one that isn't safe, and none at all.
use bolt_io::CalmShelf;
use program_files::{ProgramRefusal, judge, load_program};
use range_check::RangeRefusal;
use std::alloc::Global;
use std::test::Fail;
use vertex_expr::Part;
use vertex_lang::{Keyword, LangError};

// Each vertex has as many as it has in-edges.
const COUNT: &[u8] = b"\
    program count\n\
    vertices 1000\n\
    degree 1\n\
    edges 1000\n\
    weight 0 5\n\
    attr 0 100\n\
    rounds 1\n\
    combine sum\n\
    lane 0 0 100\n\
    init 0 0\n\
    contribute 0 1\n\
    apply 0 agg[0]\n\
";

// A weight may be 0, and is divided by.
const RATIO: &[u8] = b"\
    program ratio\n\
    vertices 1000\n\
    degree 1\n\
    edges 1000\n\
    weight 0 5\n\
    attr 0 100\n\
    rounds 1\n\
    combine sum\n\
    lane 0 0 100\n\
    init 0 0\n\
    contribute 0 val[0] / weight\n\
    apply 0 agg[0]\n\
";

const ZERO: ProgramRefusal = ProgramRefusal::Range(RangeRefusal::Zero {
    part: Part::Contribute,
    node: 2,
});

const NOTHING: ProgramRefusal = ProgramRefusal::Text(LangError::Missing {
    word: Keyword::Program,
});

// The refusal of a text in a file, if it has one.
fn file_refusal(alloc: Global, text: &[u8]) -> Result<Option<ProgramRefusal>, Fail> {
    let mut shelf = CalmShelf::new(alloc, 100);
    shelf.put_file("program", text)?;
    Ok(load_program(alloc, &mut shelf, "program")?.err())
}

#[test]
fn texts_are_judged(rt: HostRuntime) -> Result<(), Fail> {
    let alloc = rt.alloc();
    for (text, refusal) in [(COUNT, None), (RATIO, Some(ZERO)), (b"", Some(NOTHING))] {
        assert_eq!(rt; judge(alloc, text)?.err(), refusal);
        assert_eq!(rt; file_refusal(alloc, text)?, refusal);
    }
    Ok(())
}
