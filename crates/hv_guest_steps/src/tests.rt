//! Each step made once.
ghost use Rattle.std.specs.Prelude.{◌≡◌, ◌≤◌};
ghost use Rattle.hv_body.specs.Rules.{FitsArea};
ghost use Rattle.hv_region.specs.Plans.{IsRegionPlan};
ghost use Rattle.hv_guest_steps.specs.Additions.{CanBe, region_at};
ghost use Rattle.hv_guest_steps.specs.Regions.{ShowWithin};

use super::*;
use hv_answer::Reply;
use hv_body::{Body, BodyRoom};
use hv_dir::{Dir, Shelf};
use hv_emu::Emulator;
use hv_handed::Handed;
use hv_kinds::{AddressType, Generation, Stage};
use hv_refusal::Refusal;
use hv_region::{Form, RegionPlan, Window};
use hv_space::Space;
use hv_step::{Kick, Step};
use hv_text::{Bytes, Strings};
use std::alloc::{AllocError, Global};
use std::test::Fail;

type Device = Box<dyn Emulator + Send>;

/// The birth of the guest.
const BIRTH: u64 = 7;

/// The row of its RAM.
const ROW: u8 = 2;

const BASE: u64 = 0x8000_0000;

const RAM: Window = Window {
    owner: ROW,
    target: ROW,
    birth: BIRTH,
    kind: AddressType::Memory,
    base: BASE,
    size: 16,
    offset: 0,
};

/// A body of RAM.
fn ram(alloc: Global) -> Result<Body, Fail> {
    let plan = RegionPlan {
        name: Bytes::from_vec(Vec::new(alloc)),
        kind: AddressType::Memory,
        base: BASE,
        size: 16,
        form: Form::Ram,
        detached: false,
        clock: false,
        parent: None,
    };
    let room = BodyRoom::new(alloc, &plan)?;
    let mut body = Body::new(alloc)?;
    body.fill(BIRTH, ROW, room, None, 1);
    Ok(body)
}

#[test]
fn makes_a_guest(rt: HostRuntime) -> Result<(), Fail> {
    let alloc = rt.alloc();
    let mut dir = Dir::new();
    let listed: (Reply, Handed<Device>) = guests(alloc, &dir)?;
    assert!(rt; matches!(&listed.0, Reply::Guests(_)));
    let named: (Reply, Handed<Device>) = name(alloc, &mut dir, b"guest0", None)?;
    assert!(rt; matches!(&named.0, Reply::Name(Ok(_))));
    let staged: (Reply, Handed<Device>) = stage(
        &mut dir,
        b"guest0",
        Stage::Making,
        Some(Stage::Made),
    );
    assert!(rt; matches!(&staged.0, Reply::Stage(Ok(()))));
    Ok(())
}

#[test]
fn admits_a_guest(rt: HostRuntime) -> Result<(), Fail> {
    let mut dir = Dir::new();
    assert!(rt; dir.claim(rt.alloc(), b"guest0").is_ok());
    assert!(rt; admit(&dir, b"guest0", Stage::Making).is_ok());
    assert!(rt; admit_region(&dir, b"guest0", Stage::Making, Some(ROW)).is_ok());
    Ok(())
}

#[test]
fn tells_a_refusal(rt: HostRuntime) -> Result<(), Fail> {
    let step = Step::Kick(Kick {
        vcpu: 5,
        guest: None,
    });
    let told = refused(&step, Refusal::NoSuchGuest);
    assert!(rt; matches!(&told, Reply::Kick(Err(Refusal::NoSuchGuest))));
    Ok(())
}

#[test]
fn drops_a_region(rt: HostRuntime) -> Result<(), Fail> {
    let alloc = rt.alloc();
    let mut shelf = Shelf::new(Vec::new(alloc));
    let mut space = Space::new(alloc)?;
    assert!(rt; space.windows_mut().add(RAM) == Ok(()));
    let listed: (Reply, Handed<Device>) = regions(alloc, &space)?;
    assert!(rt; matches!(&listed.0, Reply::Regions(Ok(_))));
    let window = live_window(&space, ROW).ok_or("it is live")?;
    let mut body = ram(alloc)?;
    let dropped = drop(alloc, &mut shelf, &mut space, &mut body, ROW, window)?;
    assert!(rt; matches!(&dropped.0, Reply::Drop(Ok(_))));
    assert!(rt; live_window(&space, ROW) == None);
    let again: (Reply, Handed<Device>) = not_live(ROW);
    assert!(rt; matches!(&again.0, Reply::Drop(Err(Refusal::NotLive))));
    Ok(())
}

/// A row of the guest, which has one VCPU.
fn at(row: u8) -> GuestRow
    ensures row { result.row ≡ row }
    ensures vcpus { result.vcpus ≡ 1 }
{
    GuestRow {
        guest: Generation {
            slot: 1,
            birth: BIRTH,
        },
        row,
        vcpus: 1,
    }
}

/// The plan of a region of 8 bytes, which is a clock.
fn plan_of(alloc: Global, base: u64, form: Form) -> RegionPlan
    requires base { base ≤ 4294967295 }
    requires area { FitsArea 8 form }
    ensures plan { IsRegionPlan result }
    ensures area { FitsArea result.size result.form }
{
    RegionPlan {
        name: Bytes::from_vec(Vec::new(alloc)),
        kind: AddressType::Memory,
        base,
        size: 8,
        form,
        detached: false,
        clock: true,
        parent: Some((1, 10)),
    }
}

/// Adds a region if that is allowed, and tells what the addition came to.
fn try_add(
    alloc: Global,
    shelf: &mut Shelf,
    space: &mut Space,
    body: &mut Body,
    at: GuestRow,
    plan: &RegionPlan,
) -> Result<Result<Option<(u8, u64)>, NotAdded>, AllocError>
    requires can_be { CanBe (region_at at plan.now) }
    requires within { ShowWithin space.old.windows }
    ensures { ShowWithin space.new.windows }
{
    match addition(space, shelf, at, plan) {
        Ok(target) => {
            let _made = add(alloc, shelf, space, body, at, plan, target)?;
            Ok(Ok(target))
        }
        Err(why) => {
            let _made: (Reply, Handed<Device>) = not_added(at, plan, why);
            Ok(Err(why))
        }
    }
}

#[test]
fn adds_regions(rt: HostRuntime) -> Result<(), Fail> {
    let alloc = rt.alloc();
    let mut space = Space::new(alloc)?;
    let mut shelf = Shelf::new(Vec::new(alloc));
    let mut body = Body::new(alloc)?;
    let ram = plan_of(alloc, BASE, Form::Ram);
    let added = try_add(alloc, &mut shelf, &mut space, &mut body, at(2), &ram)?;
    assert!(rt; added == Ok(None));
    assert!(rt; body.byte(7) == Some(0));
    assert!(rt; space.clock() == Some((2, BIRTH)));
    let alias = plan_of(alloc, BASE + 8, Form::Alias(BASE));
    let added = try_add(alloc, &mut shelf, &mut space, &mut body, at(3), &alias)?;
    assert!(rt; added == Ok(Some((2, 0))));
    Ok(())
}

#[test]
fn refuses_regions(rt: HostRuntime) -> Result<(), Fail> {
    let alloc = rt.alloc();
    let mut space = Space::new(alloc)?;
    let mut shelf = Shelf::new(Vec::new(alloc));
    let mut body = Body::new(alloc)?;
    let ram = plan_of(alloc, BASE, Form::Ram);
    let added = try_add(alloc, &mut shelf, &mut space, &mut body, at(2), &ram)?;
    assert!(rt; added == Ok(None));
    let added = try_add(alloc, &mut shelf, &mut space, &mut body, at(3), &ram)?;
    assert!(rt; added == Err(NotAdded::Overlap(2)));
    let port = plan_of(alloc, BASE + 8, Form::Device(Strings::new(alloc)?));
    let added = try_add(alloc, &mut shelf, &mut space, &mut body, at(3), &port)?;
    assert!(rt; added == Err(NotAdded::NoEmulator));
    Ok(())
}
