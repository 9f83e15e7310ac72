//! A guest's accesses to a serial port.

ghost use Rattle.std.specs.Prelude.{◌≡◌};
ghost use Rattle.hv_kinds.specs.declared.address.AddressType.TheVariants.{Memory};

use hv_body::{Answer, Body, BodyRoom, Place};
use hv_emu::Emulator;
use hv_kinds::AddressType;
use hv_region::{Form, RegionPlan};
use hv_text::{Bytes, Strings};
use hv_uart::Uart;
use std::alloc::Global;
use std::test::Fail;

/// The birth of the guest.
const BIRTH: u64 = 7;

const BASE: u64 = 0x1000_0000;

/// Offset of the line status register.
const LSR: u64 = 5;

/// A body of the region of a serial port.
fn serial_port(alloc: Global) -> Result<Body, Fail> {
    let plan = RegionPlan {
        name: Bytes::from_vec(Vec::new(alloc)),
        kind: AddressType::Memory,
        base: BASE,
        size: 8,
        form: Form::Device(Strings::new(alloc)?),
        detached: false,
        clock: false,
        parent: None,
    };
    let room = BodyRoom::new(alloc, &plan)?;
    let part: Box<dyn Emulator + Send> = Box::new(alloc, Uart::new(alloc)?)?;
    let mut body = Body::new(alloc)?;
    body.fill(BIRTH, 2, room, Some(part), 1);
    Ok(body)
}

/// An access to memory addresses by the guest.
fn at(addr: u64, size: u8) -> Place
    ensures { result ≡ record { birth = BIRTH; kind = Memory; addr = addr; size = size } }
{
    Place {
        birth: BIRTH,
        kind: AddressType::Memory,
        addr,
        size,
    }
}

#[test]
fn answers_loads_and_stores_of_a_byte(rt: HostRuntime) -> Result<(), Fail> {
    let mut port = serial_port(rt.alloc())?;
    assert!(rt; port.fetch(at(BASE, 4)) == Answer::NoExec);
    assert!(rt; port.read(at(BASE, 2)) == Answer::Denied);
    assert!(rt; port.read(at(BASE + LSR, 1)) == Answer::Answered(0x60));
    assert!(rt; port.read(at(BASE + 8, 1)) == Answer::NotHere);
    assert!(rt; port.write(at(BASE, 2), 0x41) == Answer::Denied);
    assert!(rt; port.write(at(BASE, 1), 0x41) == Answer::Answered(0));
    assert!(rt; port.serial() && port.output_at(0) == Some(0x41));
    assert!(rt; port.byte(0) == None);
    Ok(())
}

#[test]
fn drives_its_line_until_it_is_taken_out(rt: HostRuntime) -> Result<(), Fail> {
    let mut port = serial_port(rt.alloc())?;
    // The interrupt of received data.
    assert!(rt; port.write(at(BASE + 1, 1), 1) == Answer::Answered(0));
    port.source(1, true);
    port.tick();
    assert!(rt; !port.line() && !port.pins(0).ext);
    port.feed(0x61);
    assert!(rt; port.line());
    port.reset();
    assert!(rt; !port.line());
    assert!(rt; port.clear().is_some());
    assert!(rt; !port.serial() && port.birth() == None);
    Ok(())
}
