use ada_base::{Boxed, Items};
use std::alloc::AllocError;

#[test]
fn lists_and_boxes_give_back_what_they_took(rt: HostRuntime) -> Result<(), AllocError> {
    let alloc = rt.alloc();
    let mut list = Items::new(alloc);
    assert!(rt; list.is_empty());
    list.push(3_u32)?;
    list.push(5)?;
    list.append(Items::from_vec(vec![in alloc; 7, 11]?))?;
    assert!(rt; *list.as_slice() == *[3, 5, 7, 11].as_slice());
    assert!(rt; list.pop() == Some(11));
    assert!(rt; list.get(1).copied() == Some(5));
    assert!(rt; list.get(3).is_none());
    assert!(rt; list.len() == 3);
    assert!(rt; *list.into_vec().as_slice() == *[3, 5, 7].as_slice());
    let boxed = Boxed::new(alloc, 9_u32)?;
    assert!(rt; *boxed.get() == 9);
    assert!(rt; boxed.into_inner() == 9);
    Ok(())
}
