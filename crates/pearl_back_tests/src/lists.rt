// Copies, and lists that give back what was put into them.

use pearl_value::cell::{Cell, copy_of};
use pearl_value::listing::Listing;
use std::alloc::{AllocError, Global};
use std::test::Fail;

#[test]
fn a_copy_is_the_same_value(rt: HostRuntime) {
    let cell = Cell::Fixed { len: 31, value: -7 };
    assert!(rt; matches!(copy_of(&cell), Cell::Fixed { len: 31, value: -7 }));
}

fn gives_its_items_back(alloc: Global) -> Result<bool, AllocError> {
    let list = Listing::new(Vec::from_array(alloc, [3u8, 1, 2])?);
    let is_shown = list.as_slice() == &[3u8, 1, 2][..];
    Ok(is_shown && list.into_vec().as_slice() == &[3u8, 1, 2][..])
}

#[test]
fn a_list_gives_its_items_back(rt: HostRuntime) -> Result<(), Fail> {
    assert!(rt; gives_its_items_back(rt.alloc())?);
    Ok(())
}
