use crate::{put_back, swap_in};
use std::test::Fail;

#[test]
fn items_go_in_and_come_out(rt: HostRuntime) -> Result<(), Fail> {
    let mut all = vec![in rt.alloc(); 10, 11, 12]?;
    let mut items = vec![in rt.alloc(); (2, 22), (0, 20), (2, 32)]?;
    swap_in(&mut all, &mut items);
    assert_eq!(rt; all.as_slice(), [20, 11, 32].as_slice());
    assert_eq!(rt; items.as_slice(), [(2, 12), (0, 10), (2, 22)].as_slice());
    put_back(&mut all, &mut items);
    assert_eq!(rt; all.as_slice(), [10, 11, 12].as_slice());
    assert_eq!(rt; items.len(), 0);
    Ok(())
}
