//! Each step made once.

use super::*;
use hv_answer::Reply;
use hv_body::{Body, BodyRoom};
use hv_emu::Emulator;
use hv_handed::Handed;
use hv_kinds::{AccessKind, AddressType, Generation};
use hv_region::{Form, RegionPlan, Window};
use hv_space::Space;
use hv_step::{Fault, Feed, Pin, Sample};
use hv_text::{Bytes, Strings};
use hv_uart::Uart;
use std::alloc::Global;
use std::test::Fail;

type Device = Box<dyn Emulator + Send>;

const GENERATION: Generation = Generation { slot: 1, birth: 7 };

const BASE: u64 = 0x1000_0000;

const PORT: Window = Window {
    owner: 2,
    target: 2,
    birth: 7,
    kind: AddressType::Memory,
    base: BASE,
    size: 8,
    offset: 0,
};

/// A body of the region of a serial port.
fn serial_port(alloc: Global) -> Result<Body, Fail> {
    let plan = RegionPlan {
        name: Bytes::from_vec(Vec::new(alloc)),
        kind: AddressType::Memory,
        base: BASE,
        size: 8,
        form: Form::Device(Strings::new(alloc)?),
        detached: false,
        clock: false,
        parent: None,
    };
    let room = BodyRoom::new(alloc, &plan)?;
    let part: Device = Box::new(alloc, Uart::new(alloc)?)?;
    let mut body = Body::new(alloc)?;
    body.fill(7, 2, room, Some(part), 1);
    Ok(body)
}

#[test]
fn feeds_a_serial_port(rt: HostRuntime) -> Result<(), Fail> {
    let alloc = rt.alloc();
    let mut port = serial_port(alloc)?;
    let step = Feed {
        name: Bytes::from_vec(Vec::new(alloc)),
        region: Bytes::from_vec(Vec::new(alloc)),
        bytes: Bytes::from_vec(Vec::from_slice(alloc, b"a")?),
        generation: Some(GENERATION),
    };
    let fed = feed(&step, 2, &mut port);
    assert!(rt; matches!(&fed.0, Reply::Feed(Ok(_))));
    let sent = output(alloc, 2, &port)?;
    assert!(rt; matches!(&sent.0, Reply::Output(Ok(_))));
    let was_reset = devreset(2, &mut port);
    assert!(rt; matches!(&was_reset.0, Reply::Devreset(Ok(_))));
    Ok(())
}

#[test]
fn ticks_a_clock(rt: HostRuntime) -> Result<(), Fail> {
    let mut clock = serial_port(rt.alloc())?;
    let mut space = Space::new(rt.alloc())?;
    let idle: (Reply, Handed<Device>) = tick_nothing(&space);
    assert!(rt; matches!(&idle.0, Reply::Tick(None)));
    space.set_clock(Some((2, 7)));
    let ticked = tick(&space, &mut clock);
    assert!(rt; matches!(&ticked.0, Reply::Tick(Some(_))));
    Ok(())
}

#[test]
fn carries_signals(rt: HostRuntime) -> Result<(), Fail> {
    let mut port = serial_port(rt.alloc())?;
    let mut parent = serial_port(rt.alloc())?;
    let step = Sample {
        row: 2,
        parent: 3,
        source: 1,
        generation: GENERATION,
    };
    let sampled = sample(step, &mut port, &mut parent);
    assert!(rt; matches!(&sampled.0, Reply::Sample(Some(_))));
    let step = Pin {
        row: 2,
        vcpu: 5,
        generation: GENERATION,
    };
    assert!(rt; !pins_shown(step, &port).ext);
    Ok(())
}

#[test]
fn finds_the_window_of_an_access(rt: HostRuntime) -> Result<(), Fail> {
    let mut space = Space::new(rt.alloc())?;
    assert!(rt; space.windows_mut().add(PORT) == Ok(()));
    assert!(rt; memory_window(&space, BASE, 8) == Some(PORT));
    assert!(rt; window_reached(&space, BASE + 4, 4) == Some(PORT));
    let step = Fault {
        vcpu: 5,
        address: BASE + 8,
        size: 4,
        access: AccessKind::Read,
        generation: GENERATION,
    };
    assert!(rt; is_fault(&space, step));
    Ok(())
}
