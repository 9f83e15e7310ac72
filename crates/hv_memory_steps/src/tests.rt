//! Each step made once.
ghost use Rattle.std.specs.Prelude.{IfSome};
ghost use Rattle.hv_vcpu_steps.specs.Instructions.{IsPending};

use super::*;
use hv_answer::Reply;
use hv_body::{Area, Body, BodyRoom};
use hv_device_steps::memory_window;
use hv_emu::Emulator;
use hv_handed::{Made, Pending};
use hv_kinds::{AddressType, Generation};
use hv_refusal::Refusal;
use hv_region::{Form, RegionPlan, VcpuPlan, Window};
use hv_space::Space;
use hv_step::{Fetch, Load, Mem};
use hv_text::{Bytes, Path};
use hv_vcpu::{Move, Vcpu};
use std::alloc::Global;
use std::test::Fail;

type Device = Box<dyn Emulator + Send>;

const GENERATION: Generation = Generation { slot: 1, birth: 7 };

/// The row of the region.
const ROW: u8 = 2;

const BASE: u64 = 0x8000_0000;

const WINDOW: Window = Window {
    owner: ROW,
    target: ROW,
    birth: 7,
    kind: AddressType::Memory,
    base: BASE,
    size: 16,
    offset: 0,
};

const PLAN: VcpuPlan = VcpuPlan {
    start: BASE,
    priority: 3,
    slice: 8,
};

const FETCH: Fetch = Fetch {
    vcpu: 5,
    row: ROW,
    generation: GENERATION,
};

/// lw x6, 0(x5) behind auipc x5, 0, which gives x5 the address of itself.
const PROGRAM: [u8; 8] = [0x97, 0x02, 0, 0, 0x03, 0xa3, 0x02, 0];

/// The VCPU of the guest, which hart 0 runs.
fn running() -> Vcpu {
    let mut vcpu = Vcpu::new();
    let add = Move::Add {
        birth: 7,
        index: 0,
        plan: PLAN,
    };
    let _ = vcpu.step(add);
    let _ = vcpu.step(Move::Kick);
    let _ = vcpu.step(Move::Dispatch(0));
    vcpu
}

/// The region's space.
fn space(alloc: Global) -> Result<Space, Fail> {
    let mut space = Space::new(alloc)?;
    space.windows_mut().add(WINDOW)?;
    Ok(space)
}

/// A region with memory of its own.
fn ram(alloc: Global) -> Result<Body, Fail> {
    let plan = RegionPlan {
        name: Bytes::from_vec(Vec::new(alloc)),
        kind: AddressType::Memory,
        base: BASE,
        size: 16,
        form: Form::Ram,
        detached: false,
        clock: false,
        parent: None,
    };
    let room = BodyRoom::new(alloc, &plan)?;
    let mut body = Body::new(alloc)?;
    body.fill(7, ROW, room, None, 1);
    Ok(body)
}

/// A region that shows the first area.
fn shared(alloc: Global) -> Result<Body, Fail> {
    let plan = RegionPlan {
        name: Bytes::from_vec(Vec::new(alloc)),
        kind: AddressType::Memory,
        base: BASE,
        size: 16,
        form: Form::Real { area: 0, offset: 0 },
        detached: false,
        clock: false,
        parent: None,
    };
    let room = BodyRoom::new(alloc, &plan)?;
    let mut body = Body::new(alloc)?;
    body.fill(7, ROW, room, None, 1);
    Ok(body)
}

/// The load of a program.
fn load_of(alloc: Global) -> Load {
    Load {
        name: Bytes::from_vec(Vec::new(alloc)),
        path: Path::root(alloc),
        address: BASE,
        generation: Some(GENERATION),
    }
}

/// The look at a program.
fn mem_of(alloc: Global) -> Mem {
    Mem {
        name: Bytes::from_vec(Vec::new(alloc)),
        address: BASE,
        count: 8,
        generation: Some(GENERATION),
    }
}

/// Loads a program into a region's own memory.
fn load_own(alloc: Global, body: &mut Body) -> Result<Option<Made<Device>>, Fail> {
    let space = space(alloc)?;
    let step = load_of(alloc);
    let bytes = Bytes::from_vec(Vec::from_slice(alloc, &PROGRAM)?);
    let size = bytes.len() as u64;
    let Some(window) = memory_window(&space, step.address, size) else {
        return Ok(None);
    };
    if area_shown(body, window, step.address, size).is_some() {
        return Ok(None);
    }
    Ok(Some(load(&step, &bytes, &space, window, body)))
}

/// Loads a program into an area.
fn load_area(alloc: Global, body: &Body, area: &mut Area) -> Result<Option<Made<Device>>, Fail> {
    let space = space(alloc)?;
    let step = load_of(alloc);
    let bytes = Bytes::from_vec(Vec::from_slice(alloc, &PROGRAM)?);
    let size = bytes.len() as u64;
    let Some(window) = memory_window(&space, step.address, size) else {
        return Ok(None);
    };
    let Some((_, offset)) = area_shown(body, window, step.address, size) else {
        return Ok(None);
    };
    if size < 1 || !reaches(area, offset, size) {
        return Ok(None);
    }
    Ok(Some(load_shared(&step, &bytes, &space, window, body, area)))
}

/// Looks at the program there.
fn look_own(alloc: Global, body: &Body) -> Result<Option<Made<Device>>, Fail> {
    let space = space(alloc)?;
    let step = mem_of(alloc);
    let Some(window) = memory_window(&space, step.address, step.count) else {
        return Ok(None);
    };
    if area_shown(body, window, step.address, step.count).is_some() {
        return Ok(None);
    }
    Ok(Some(mem(alloc, &step, &space, window, body)?))
}

/// Looks at the program in an area.
fn look_area(alloc: Global, body: &Body, area: &Area) -> Result<Option<Made<Device>>, Fail> {
    let space = space(alloc)?;
    let step = mem_of(alloc);
    let Some(window) = memory_window(&space, step.address, step.count) else {
        return Ok(None);
    };
    let Some((_, offset)) = area_shown(body, window, step.address, step.count) else {
        return Ok(None);
    };
    if step.count < 1 || !reaches(area, offset, step.count) {
        return Ok(None);
    }
    Ok(Some(mem_shared(alloc, &step, &space, window, body, area)?))
}

/// Fetches from a region's own memory.
fn fetch_own(vcpu: &mut Vcpu, body: &Body) -> Option<Made<Device>>
    ensures { IfSome result (λ made. IfSome made.told.pending IsPending) }
{
    if area_fetched(0, FETCH, vcpu, body).is_some() {
        return None;
    }
    fetch(0, FETCH, vcpu, body)
}

/// Fetches from an area.
fn fetch_area(vcpu: &mut Vcpu, body: &Body, area: &Area) -> Option<Made<Device>>
    ensures { IfSome result (λ made. IfSome made.told.pending IsPending) }
{
    let (_, offset) = area_fetched(0, FETCH, vcpu, body)?;
    if !reaches(area, offset, 4) {
        return None;
    }
    Some(fetch_shared(0, FETCH, vcpu, body, area))
}

/// Makes an access at a region's own memory.
fn access_own(pending: Pending, vcpu: &mut Vcpu, body: &mut Body) -> Option<Made<Device>>
    requires { IsPending pending }
{
    let step = access_step(5, ROW, pending, GENERATION);
    if area_accessed(0, step, pending, vcpu, body).is_some() {
        return None;
    }
    access(0, step, pending, vcpu, body)
}

/// Makes an access at an area.
fn access_area(
    pending: Pending,
    vcpu: &mut Vcpu,
    body: &Body,
    area: &mut Area,
) -> Option<Made<Device>>
    requires { IsPending pending }
{
    let step = access_step(5, ROW, pending, GENERATION);
    let (_, offset) = area_accessed(0, step, pending, vcpu, body)?;
    if step.size < 1 || !reaches(area, offset, step.size as u64) {
        return None;
    }
    Some(access_shared(0, step, pending, vcpu, body, area))
}

#[test]
fn loads_nothing_without_a_window(rt: HostRuntime) -> Result<(), Fail> {
    let alloc = rt.alloc();
    let made: Made<Device> = load_missing(Refusal::NoEntry);
    assert!(rt; matches!(&made.reply, Reply::Load(Err(Refusal::NoEntry))));
    let space = Space::new(alloc)?;
    let bytes = Bytes::from_vec(Vec::new(alloc));
    let step = load_of(alloc);
    if memory_window(&space, step.address, bytes.len() as u64).is_none() {
        let made: Made<Device> = load_nowhere(&step, &bytes, &space);
        assert!(rt; matches!(&made.reply, Reply::Load(Err(Refusal::NoWindow))));
    }
    let step = mem_of(alloc);
    if memory_window(&space, step.address, step.count).is_none() {
        let made: Made<Device> = mem_nowhere(&step, &space);
        assert!(rt; matches!(&made.reply, Reply::Mem(Err(Refusal::NoWindow))));
    }
    Ok(())
}

#[test]
fn shows_what_is_loaded(rt: HostRuntime) -> Result<(), Fail> {
    let alloc = rt.alloc();
    let mut body = ram(alloc)?;
    let made = load_own(alloc, &mut body)?.ok_or("a window is there")?;
    assert!(rt; matches!(&made.reply, Reply::Load(Ok(8))));
    let made = look_own(alloc, &body)?.ok_or("a window is there")?;
    let Reply::Mem(Ok(bytes)) = &made.reply else {
        assert!(rt; false);
        return Ok(());
    };
    assert!(rt; bytes.as_slice() == PROGRAM.as_slice());
    Ok(())
}

#[test]
fn shows_what_is_loaded_into_an_area(rt: HostRuntime) -> Result<(), Fail> {
    let alloc = rt.alloc();
    let body = shared(alloc)?;
    let mut area = Area::new(alloc, 16)?;
    let made = load_area(alloc, &body, &mut area)?.ok_or("a window is there")?;
    assert!(rt; matches!(&made.reply, Reply::Load(Ok(8))));
    let made = look_area(alloc, &body, &area)?.ok_or("a window is there")?;
    let Reply::Mem(Ok(bytes)) = &made.reply else {
        assert!(rt; false);
        return Ok(());
    };
    assert!(rt; bytes.as_slice() == PROGRAM.as_slice());
    Ok(())
}

#[test]
fn makes_an_access(rt: HostRuntime) -> Result<(), Fail> {
    let alloc = rt.alloc();
    let mut vcpu = running();
    let mut body = ram(alloc)?;
    load_own(alloc, &mut body)?.ok_or("a window is there")?;
    let made = fetch_own(&mut vcpu, &body).ok_or("it fetches")?;
    assert!(rt; made.told.pending.is_none());
    let made = fetch_own(&mut vcpu, &body).ok_or("it fetches")?;
    let pending = made.told.pending.ok_or("it loads")?;
    let made = access_own(pending, &mut vcpu, &mut body).ok_or("it runs")?;
    assert!(rt; matches!(&made.reply, Reply::Access(Some(_))));
    Ok(())
}

#[test]
fn makes_an_access_at_an_area(rt: HostRuntime) -> Result<(), Fail> {
    let alloc = rt.alloc();
    let mut vcpu = running();
    let body = shared(alloc)?;
    let mut area = Area::new(alloc, 16)?;
    load_area(alloc, &body, &mut area)?.ok_or("a window is there")?;
    let made = fetch_area(&mut vcpu, &body, &area).ok_or("it fetches")?;
    assert!(rt; made.told.pending.is_none());
    let made = fetch_area(&mut vcpu, &body, &area).ok_or("it fetches")?;
    let pending = made.told.pending.ok_or("it loads")?;
    let made = access_area(pending, &mut vcpu, &body, &mut area).ok_or("it runs")?;
    assert!(rt; matches!(&made.reply, Reply::Access(Some(_))));
    Ok(())
}
