use hv_items::{Boxed, Items};
use std::test::Fail;

#[test]
fn a_list_gives_its_items_back(rt: HostRuntime) -> Result<(), Fail> {
    let mut items = Items::new(rt.alloc());
    for n in [1u8, 2, 3] {
        items.push(n)?;
    }
    assert_eq!(rt; items.len(), 3);
    assert_eq!(rt; items.replace(1, 7), 2);
    items.set(0, 5);
    assert_eq!(rt; items.pop(), Some(3));
    let list = items.into_vec();
    assert_eq!(rt; list.as_slice(), [5u8, 7].as_slice());
    Ok(())
}

#[test]
fn a_box_gives_its_value_back(rt: HostRuntime) -> Result<(), Fail> {
    let boxed = Boxed::new(rt.alloc(), 4u8)?;
    assert_eq!(rt; *boxed.get(), 4);
    assert_eq!(rt; boxed.into_inner(), 4);
    Ok(())
}
