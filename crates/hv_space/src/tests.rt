//! A guest's space, as a board uses it.

use super::*;
use hv_kinds::AddressType;
use hv_region::Window;
use std::test::Fail;

const RAM: Window = Window {
    owner: 0,
    target: 0,
    birth: 7,
    kind: AddressType::Memory,
    base: 0x8000_0000,
    size: 0x1_0000,
    offset: 0,
};

#[test]
fn keeps_windows_and_clock_apart(rt: HostRuntime) -> Result<(), Fail> {
    let mut space = Space::new(rt.alloc())?;
    assert!(rt; space.clock() == None);
    assert!(rt; space.windows_mut().add(RAM) == Ok(()));
    space.set_clock(Some((3, 7)));
    assert!(rt; space.windows().at(0) == Some(RAM));
    space.windows_mut().remove_owner(0);
    assert!(rt; space.windows().at(0) == None);
    assert!(rt; space.clock() == Some((3, 7)));
    Ok(())
}
