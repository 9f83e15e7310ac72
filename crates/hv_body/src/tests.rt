//! A guest's accesses to its regions, as its loads and stores would go.
ghost use Rattle.std.specs.Prelude.{◌+◌, ◌^◌, ◌≤◌, ◌≡◌};
ghost use Rattle.hv_text.specs.declared.limits.TheConstants.{MOST_MEMORY};
ghost use Rattle.hv_kinds.specs.declared.address.AddressType.TheVariants.{Memory};
ghost use Rattle.hv_body.specs.Rules.{CanMake, FitsArea};

use super::*;
use hv_emu::Emulator;
use hv_kinds::AddressType;
use hv_region::{Form, RegionPlan, Window};
use hv_text::Bytes;
use std::alloc::Global;
use std::test::Fail;

/// The birth of the guest.
const BIRTH: u64 = 7;

/// The index of the region.
const ROW: u8 = 2;

const BASE: u64 = 0x8000_0000;

const ZERO: Answer = Answer::Answered(0);

/// Makes a region of memory addresses live.
fn fill(
    alloc: Global,
    body: &mut Body,
    form: Form,
    size: u64,
    part: Option<Box<dyn Emulator + Send>>,
) -> Result<(), Fail>
    requires some { 1 ≤ size }
    requires most { size ≤ MOST_MEMORY }
    requires area { FitsArea size form }
    requires form { CanMake form part }
{
    let plan = RegionPlan {
        name: Bytes::from_vec(Vec::new(alloc)),
        kind: AddressType::Memory,
        base: BASE,
        size,
        form,
        detached: false,
        clock: false,
        parent: None,
    };
    let room = BodyRoom::new(alloc, &plan)?;
    body.fill(BIRTH, ROW, room, part, 1);
    Ok(())
}

/// A body of such a region.
fn live(
    alloc: Global,
    form: Form,
    size: u64,
    part: Option<Box<dyn Emulator + Send>>,
) -> Result<Body, Fail>
    requires some { 1 ≤ size }
    requires most { size ≤ MOST_MEMORY }
    requires area { FitsArea size form }
    requires form { CanMake form part }
{
    let mut body = Body::new(alloc)?;
    fill(alloc, &mut body, form, size, part)?;
    Ok(body)
}

/// Puts bytes at the start of memory, where it has so many.
fn store(body: &mut Body, bytes: &[u8]) -> bool {
    let count = bytes.len() as u64;
    if count < 1 {
        return false;
    }
    match body.byte(count - 1) {
        Some(_) => {
            body.store(0, bytes);
            true
        }
        None => false,
    }
}

/// An access to memory addresses by the guest.
fn at(addr: u64, size: u8) -> Place
    ensures { result ≡ record { birth = BIRTH; kind = Memory; addr = addr; size = size } }
{
    Place {
        birth: BIRTH,
        kind: AddressType::Memory,
        addr,
        size,
    }
}

/// What a load answers.
fn load(body: &mut Body, addr: u64, size: u8) -> Answer {
    if size < 1 || size > 8 {
        return Answer::Denied;
    }
    body.read(at(addr, size))
}

/// The window of another region that shows the last bytes of one of 0x1000 bytes.
fn alias(owner: u8, base: u64, size: u64, offset: u64) -> Window {
    Window {
        owner,
        target: ROW,
        birth: BIRTH,
        kind: AddressType::Memory,
        base,
        size,
        offset,
    }
}

#[test]
fn reaches_the_ends_of_ram(rt: HostRuntime) -> Result<(), Fail> {
    let mut ram = live(rt.alloc(), Form::Ram, 0x1004, None)?;
    let rows: [(u64, u8, Answer); 9] = [
        (BASE, 1, ZERO),
        (BASE, 8, ZERO),
        (BASE - 1, 1, Answer::NotHere),
        (BASE - 1, 2, Answer::NotHere),
        (BASE + 0x1000, 4, ZERO),
        (BASE + 0x1000, 8, Answer::NotHere),
        (BASE + 0x1003, 1, ZERO),
        (BASE + 0x1003, 2, Answer::NotHere),
        (BASE + 0x1004, 1, Answer::NotHere),
    ];
    for (addr, size, answer) in rows {
        assert!(rt; load(&mut ram, addr, size) == answer, "{size} at {addr:x}");
    }
    let later = Place {
        birth: 8,
        kind: AddressType::Memory,
        addr: BASE,
        size: 4,
    };
    assert!(rt; ram.read(later) == Answer::NotHere);
    let port = Place {
        birth: BIRTH,
        kind: AddressType::Io,
        addr: BASE,
        size: 4,
    };
    assert!(rt; ram.read(port) == Answer::NotHere);
    Ok(())
}

#[test]
fn keeps_the_lowest_byte_first(rt: HostRuntime) -> Result<(), Fail> {
    let mut ram = live(rt.alloc(), Form::Ram, 16, None)?;
    assert!(rt; ram.write(at(BASE + 8, 8), 0x0807_0605_0403_0201) == ZERO);
    let rows: [(u64, u8, u64); 6] = [
        (8, 1, 0x01),
        (8, 2, 0x0201),
        (9, 2, 0x0302),
        (8, 4, 0x0403_0201),
        (8, 8, 0x0807_0605_0403_0201),
        (4, 8, 0x0403_0201_0000_0000),
    ];
    for (offset, size, value) in rows {
        assert!(rt;
            load(&mut ram, BASE + offset, size) == Answer::Answered(value),
            "{size} at {offset}"
        );
    }
    assert!(rt; ram.write(at(BASE + 9, 2), 0xbbaa) == ZERO);
    assert!(rt; ram.fetch(at(BASE + 8, 4)) == Answer::Answered(0x04bb_aa01));
    assert!(rt; ram.byte(10) == Some(0xbb));
    assert!(rt; ram.byte(16) == None);
    Ok(())
}

#[test]
fn denies_writes_to_rom(rt: HostRuntime) -> Result<(), Fail> {
    let mut rom = live(rt.alloc(), Form::Rom, 8, None)?;
    assert!(rt; store(&mut rom, b"\x13\x01\x02\x03"));
    assert!(rt; rom.write(at(BASE, 4), 5) == Answer::Denied);
    assert!(rt; load(&mut rom, BASE, 4) == Answer::Answered(0x0302_0113));
    assert!(rt; rom.fetch(at(BASE, 4)) == Answer::Answered(0x0302_0113));
    assert!(rt; rom.clear().is_none());
    assert!(rt; rom.birth() == None);
    assert!(rt; load(&mut rom, BASE, 4) == Answer::NotHere);
    Ok(())
}

#[test]
fn forgets_what_a_region_held(rt: HostRuntime) -> Result<(), Fail> {
    let alloc = rt.alloc();
    let mut ram = live(alloc, Form::Ram, 8, None)?;
    assert!(rt; ram.plan().is_some_and(|plan| plan.size == 8));
    assert!(rt; store(&mut ram, b"12345678"));
    assert!(rt; !store(&mut ram, b"123456789"));
    ram.add_window(alias(3, BASE + 8, 8, 0));
    fill(alloc, &mut ram, Form::Ram, 8, None)?;
    assert!(rt; load(&mut ram, BASE, 8) == ZERO);
    assert!(rt; load(&mut ram, BASE + 8, 1) == Answer::NotHere);
    Ok(())
}

#[test]
fn shows_a_region_through_an_alias(rt: HostRuntime) -> Result<(), Fail> {
    let mut ram = live(rt.alloc(), Form::Ram, 0x1000, None)?;
    let mirror = BASE + 0x1000;
    ram.add_window(alias(3, mirror, 0x11, 0xff0));
    assert!(rt; load(&mut ram, mirror, 1) == Answer::NotHere);
    ram.add_window(alias(3, mirror, 0x10, 0xff0));
    assert!(rt; ram.write(at(BASE + 0xff8, 8), 0x1122_3344_5566_7788) == ZERO);
    assert!(rt; load(&mut ram, mirror + 8, 8) == Answer::Answered(0x1122_3344_5566_7788));
    assert!(rt; load(&mut ram, mirror + 15, 1) == Answer::Answered(0x11));
    assert!(rt; load(&mut ram, mirror + 15, 2) == Answer::NotHere);
    // One window holds each byte, but none all of them.
    assert!(rt; load(&mut ram, mirror - 2, 4) == Answer::NotHere);
    // It meets the first, belongs to a region with a window, is of another guest.
    ram.add_window(alias(4, mirror + 15, 1, 0));
    ram.add_window(alias(3, mirror + 16, 1, 0));
    ram.add_window(alias(16, mirror + 16, 1, 0));
    assert!(rt; load(&mut ram, mirror + 16, 1) == Answer::NotHere);
    ram.remove_window(3);
    assert!(rt; load(&mut ram, mirror, 1) == Answer::NotHere);
    assert!(rt; load(&mut ram, BASE, 1) == ZERO);
    Ok(())
}

#[test]
fn shares_an_area(rt: HostRuntime) -> Result<(), Fail> {
    let alloc = rt.alloc();
    let mut area = Area::new(alloc, 0x20)?;
    let whole = Form::Real { area: 1, offset: 0 };
    let part = Form::Real {
        area: 1,
        offset: 0x10,
    };
    let mut one = live(alloc, whole, 0x20, None)?;
    let mut other = live(alloc, part, 0x10, None)?;
    assert!(rt; one.write(at(BASE + 0x14, 2), 0x4241) == Answer::InArea(1, 0x14));
    assert!(rt; load(&mut other, BASE + 4, 2) == Answer::InArea(1, 0x14));
    assert!(rt; one.fetch(at(BASE, 4)) == Answer::InArea(1, 0));
    assert!(rt; one.byte(0) == None);
    area.write(0x14, 2, 0x4241);
    assert!(rt; area.read(0x14, 1) == 0x41);
    assert!(rt; area.read(0x15, 1) == 0x42);
    area.store(0x1e, b"yz");
    assert!(rt; area.byte(0x1f) == Some(0x7a));
    assert!(rt; area.byte(0x20) == None);
    Ok(())
}
