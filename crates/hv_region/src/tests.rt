//! Windows worked out by hand.

use super::*;
use hv_kinds::AddressType;
use hv_text::{Bytes, Strings};
use std::test::Fail;

const MEMORY: AddressType = AddressType::Memory;

const IO: AddressType = AddressType::Io;

fn window(owner: u8, target: u8, kind: AddressType, base: u64, size: u64) -> Window {
    Window {
        owner,
        target,
        birth: 5,
        kind,
        base,
        size,
        offset: 0,
    }
}

/// Adds a window where that may be asked.
fn add(windows: &mut WindowList, window: Window) -> Result<(), RegionRefusal> {
    let mut place = 0;
    'others: while let Some(there) = windows.at(place) {
        if there.owner == window.owner {
            return Err(RegionRefusal::AliasTarget);
        }
        place += 1;
    }
    if window.size < 1 || window.owner > 15 {
        return Err(RegionRefusal::AliasTarget);
    }
    windows.add(window)
}

#[test]
fn parts_addresses(rt: HostRuntime) -> Result<(), Fail> {
    let rows: [(u64, Option<(AddressType, u64)>); 6] = [
        (0, Some((MEMORY, 0))),
        (0x00ff_ffff_ffff_ffff, Some((MEMORY, 0x00ff_ffff_ffff_ffff))),
        (0x0100_0000_0000_0000, Some((IO, 0))),
        (0x0100_0000_ffff_ffff, Some((IO, 0xffff_ffff))),
        (0x0100_0001_0000_0000, None),
        (u64::MAX, None),
    ];
    for (addr, place) in rows {
        assert!(rt; guest_place(addr) == place, "address {addr:x}");
    }
    assert!(rt; end_of(MEMORY) == 0x0100_0000_0000_0000);
    assert!(rt; end_of(IO) == 0x0001_0000_0000);
    Ok(())
}

#[test]
fn keeps_windows_apart(rt: HostRuntime) -> Result<(), Fail> {
    let alloc = rt.alloc();
    let mut windows = WindowList::new(alloc)?;
    let ram = window(3, 3, MEMORY, 0x8000_0000, 0x1_0000);
    assert!(rt; add(&mut windows, ram) == Ok(()));
    // The last byte, the first byte and one that holds them all.
    let rows: [(Window, Result<(), RegionRefusal>); 5] = [
        (
            window(1, 1, MEMORY, 0x8000_ffff, 1),
            Err(RegionRefusal::Overlap(3)),
        ),
        (
            window(1, 1, MEMORY, 0x7fff_ffff, 2),
            Err(RegionRefusal::Overlap(3)),
        ),
        (
            window(1, 1, MEMORY, 0, 0x0100_0000_0000_0000),
            Err(RegionRefusal::Overlap(3)),
        ),
        (
            window(1, 1, MEMORY, 0, 0x0100_0000_0000_0001),
            Err(RegionRefusal::OutOfRange),
        ),
        (
            window(1, 1, MEMORY, u64::MAX, u64::MAX),
            Err(RegionRefusal::OutOfRange),
        ),
    ];
    for (wrong, answer) in rows {
        assert!(rt; add(&mut windows, wrong) == answer, "base {}", wrong.base);
    }
    assert!(rt; add(&mut windows, window(1, 1, MEMORY, 0x8001_0000, 1)) == Ok(()));
    assert!(rt; add(&mut windows, window(2, 3, MEMORY, 0x7fff_ffff, 1)) == Ok(()));
    assert!(rt; add(&mut windows, window(0, 0, IO, 0xffff_ffff, 1)) == Ok(()));
    assert!(rt;
        add(&mut windows, window(4, 4, IO, 0x8000_0000, 0x8000_0000))
            == Err(RegionRefusal::Overlap(0))
    );
    assert!(rt;
        add(&mut windows, window(4, 4, IO, 0xffff_ffff, 2)) == Err(RegionRefusal::OutOfRange)
    );
    // Of several owners the least is told.
    assert!(rt;
        add(&mut windows, window(5, 5, MEMORY, 0x7fff_ffff, 0x1_0002))
            == Err(RegionRefusal::Overlap(1))
    );
    let order: [(usize, Option<u8>); 5] = [
        (0, Some(2)),
        (1, Some(3)),
        (2, Some(1)),
        (3, Some(0)),
        (4, None),
    ];
    for (place, owner) in order {
        assert!(rt;
            windows.at(place).map(|it| it.owner) == owner,
            "place {place}"
        );
    }
    Ok(())
}

#[test]
fn finds_windows(rt: HostRuntime) -> Result<(), Fail> {
    let alloc = rt.alloc();
    let mut windows = WindowList::new(alloc)?;
    let ram = window(0, 0, MEMORY, 0x8000_0000, 0x1_0000);
    let mirror = window(1, 0, MEMORY, 0xa000_0000, 0x10);
    let port = window(2, 2, IO, 0x3f8, 8);
    for each in [mirror, port, ram] {
        assert!(rt; add(&mut windows, each) == Ok(()));
    }
    let rows: [(AddressType, u64, u64, Option<Window>); 9] = [
        (MEMORY, 0x8000_0000, 0x1_0000, Some(ram)),
        (MEMORY, 0x8000_0000, 0x1_0001, None),
        (MEMORY, 0x8000_ffff, 1, Some(ram)),
        (MEMORY, 0x8000_ffff, 0, None),
        (MEMORY, 0x7fff_ffff, 2, None),
        (MEMORY, 0xa000_000f, 1, Some(mirror)),
        (MEMORY, 0x3f8, 1, None),
        (IO, 0x3ff, 1, Some(port)),
        (IO, u64::MAX, u64::MAX, None),
    ];
    for (kind, addr, size, found) in rows {
        assert!(rt;
            windows.find(kind, addr, size) == found,
            "find {addr:x} {size:x}"
        );
    }
    let targets: [(u64, u64, Result<Window, RegionRefusal>); 4] = [
        (0x8000_fff0, 0x10, Ok(ram)),
        (0x8000_fff0, 0x11, Err(RegionRefusal::AliasTarget)),
        (0xa000_0000, 1, Err(RegionRefusal::AliasTarget)),
        (0x8000_0000, 0, Err(RegionRefusal::AliasTarget)),
    ];
    for (addr, size, found) in targets {
        assert!(rt;
            windows.alias_of(MEMORY, addr, size) == found,
            "target {addr:x} {size:x}"
        );
    }
    windows.remove_owner(2);
    assert!(rt; windows.find(IO, 0x3f8, 1) == None);
    windows.remove_target(0);
    assert!(rt; windows.at(0) == None);
    Ok(())
}

#[test]
fn has_room_for_all_regions(rt: HostRuntime) -> Result<(), Fail> {
    let alloc = rt.alloc();
    let mut windows = WindowList::new(alloc)?;
    for owner in 0..16u8 {
        // From the highest to the lowest.
        let base = u64::from(15 - owner);
        assert!(rt;
            add(&mut windows, window(owner, owner, MEMORY, base, 1)) == Ok(()),
            "owner {owner}"
        );
    }
    assert!(rt; windows.at(0).map(|it| it.owner) == Some(15));
    assert!(rt; windows.at(15).map(|it| it.owner) == Some(0));
    assert!(rt; windows.at(16) == None);
    Ok(())
}

#[test]
fn holds_plans(rt: HostRuntime) -> Result<(), Fail> {
    let alloc = rt.alloc();
    let vcpu = VcpuPlan {
        start: 0x8000_0000,
        priority: 3,
        slice: 8,
    };
    let region = RegionPlan {
        name: Bytes::from_vec(Vec::from_slice(alloc, b"uart")?),
        kind: MEMORY,
        base: 0x1000_0000,
        size: 8,
        form: Form::Device(Strings::new(alloc)?),
        detached: false,
        clock: false,
        parent: Some((1, 10)),
    };
    assert!(rt; vcpu.priority == 3);
    assert!(rt; region.parent == Some((1, 10)));
    Ok(())
}
