// Each text is that of a program, which is accepted, printed as it stands, and run.
mod rows;

use crate::shipped;
use range_check::check;
use std::test::Fail;
use vertex_lang::{parse, print};

#[test]
fn texts_are_programs(rt: HostRuntime) -> Result<(), Fail> {
    let alloc = rt.alloc();
    for name in ["rank", "labels2", "labels4", "dist", "wide"] {
        let text = shipped(name).unwrap_or(b"");
        let program = parse(alloc, text)?;
        let printed = print(alloc, &program)?;
        assert_eq!(rt; printed.as_slice(), text);
        let accepted = check(alloc, program)?;
        assert_eq!(rt;
            accepted.program().entries().name.as_slice(),
            name.as_bytes()
        );
    }
    assert!(rt; shipped("ranks").is_none());
    assert!(rt; shipped("").is_none());
    Ok(())
}
