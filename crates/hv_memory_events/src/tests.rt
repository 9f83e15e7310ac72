//! What steps that reach memory touch.

use crate::loads::load_parts;
use crate::looks::mem_parts;
use hv_event::CellId;
use hv_kinds::{AddressType, Generation};
use hv_region::Window;
use std::test::Fail;

const GUEST: Generation = Generation { slot: 1, birth: 7 };

/// An alias: its window is of row 4, and leads to row 2.
const ALIAS: Window = Window {
    owner: 4,
    target: 2,
    birth: 7,
    kind: AddressType::Memory,
    base: 0x8000_0000,
    size: 16,
    offset: 8,
};

#[test]
fn loads_into_the_area_behind_an_alias(rt: HostRuntime) -> Result<(), Fail> {
    let xs = load_parts(rt.alloc(), GUEST, Some(ALIAS), Some((3, 8)))?;
    let touched = [
        CellId::Dir,
        CellId::Files,
        CellId::Space(1),
        CellId::Body(1, 2),
        CellId::Area(3),
    ];
    assert!(rt; xs.as_slice() == touched.as_slice());
    Ok(())
}

#[test]
fn looks_where_no_window_is(rt: HostRuntime) -> Result<(), Fail> {
    let xs = mem_parts(rt.alloc(), GUEST, None, None)?;
    let touched = [CellId::Dir, CellId::Space(1)];
    assert!(rt; xs.as_slice() == touched.as_slice());
    Ok(())
}
