// Texts that are refused, and the texts of programs both ways.
use std::alloc::{AllocError, Global};
use std::test::Fail;
use vertex_lang::{Keyword, LangError, parse, print};

/// The lines of a small program.
const BASE: [&[u8]; 12] = [
    b"program base",
    b"vertices 1000",
    b"degree 1",
    b"edges 1000",
    b"weight -10 10",
    b"attr 0 100",
    b"rounds 1",
    b"combine sum",
    b"lane 0 0 100",
    b"init 0 0",
    b"contribute 0 1",
    b"apply 0 agg[0]",
];

/// The base with other lines, each ended by a line feed.
fn changed(alloc: Global, changes: &[(usize, &[u8])]) -> Result<Vec<u8>, AllocError> {
    let mut text = Vec::new(alloc);
    for (k, line) in BASE.iter().enumerate() {
        let mut said = *line;
        for (at, other) in changes {
            if *at == k {
                said = *other;
            }
        }
        text.extend_from_slice(said)?;
        text.push(b'\n')?;
    }
    Ok(text)
}

#[test]
fn refused_texts(rt: HostRuntime) -> Result<(), Fail> {
    let missing = LangError::Missing {
        word: Keyword::Lane,
    };
    let table: [(usize, &[u8], LangError); 5] = [
        (9, b"init 0 val[0]", LangError::Unknown { at: 113 }),
        (6, b"rounds  # 1", LangError::Syntax { at: 80 }),
        (8, b"param a 1\nparam a 2", LangError::Repeat { at: 109 }),
        (8, b"lane 1 0 100", missing),
        (5, b"attr 1 2", LangError::TooBig { at: 66 }),
    ];
    for (line, said, error) in table {
        let text = changed(rt.alloc(), &[(line, said)])?;
        assert!(rt;
            parse(rt.alloc(), &text).err() == Some(error),
            "line {line}"
        );
    }
    Ok(())
}

#[test]
fn accepted_texts(rt: HostRuntime) -> Result<(), Fail> {
    let loose: &[u8] =
        b"\t program  base # a name\r\n\nvertices 01000\ndegree 1\nedges 1000\nweight -10 10\n\
        attr -0 100\nrounds 1\ncombine min 7\nparam far 1\nlane 0 0 100\n init 0 ((far))\n\
        contribute 0 1-(2-3)*(4/5)-6\napply 0 if ( agg [ 0 ]<=1 , (2*3) , -0 )";
    let program = parse(rt.alloc(), loose)?;
    let said = changed(
        rt.alloc(),
        &[
            (7, b"combine min 7"),
            (8, b"param far 1\nlane 0 0 100"),
            (9, b"init 0 far"),
            (10, b"contribute 0 1 - (2 - 3) * (4 / 5) - 6"),
            (11, b"apply 0 if(agg[0] <= 1, 2 * 3, 0)"),
        ],
    )?;
    assert!(rt; print(rt.alloc(), &program)?.as_slice() == said.as_slice());
    Ok(())
}
