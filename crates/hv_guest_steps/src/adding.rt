//! Regions that are added.
ghost use Rattle.std.specs.Prelude.{◌≡◌, List, filter, Some, None, Ok, IfOk, OnErr};
ghost use Rattle.std.specs.Option.{option_map};
ghost use Rattle.std.specs.Result.{IsOk};
ghost use Rattle.hv_body.specs.Body.{seen, with_window};
ghost use Rattle.hv_body.specs.Windows.{meets, put_in_order};
ghost use Rattle.hv_dir.specs.Pool.{devices_of};
ghost use Rattle.hv_emu.specs.Device.{DevState};
ghost use Rattle.hv_handed.specs.Given.{given};
ghost use Rattle.hv_handed.specs.Takes.{ShelfTakes, SpaceTakes};
ghost use Rattle.hv_region.specs.Windows.{HasNone, IsWindow};
ghost use Rattle.hv_region.specs.declared.window.Window.{Window};
ghost use Rattle.hv_rules.specs.Body.{built};
ghost use Rattle.hv_rules.specs.Shelf.{device_for, without_device};
ghost use Rattle.hv_rules.specs.Space.{least_row, refusal_in, with_region};
ghost use Rattle.hv_rules.specs.Windows.{window_of};
ghost use Rattle.hv_space.specs.Space.{SpaceState};
ghost use Rattle.hv_step.specs.declared.step.Add.{Add};
ghost use Rattle.hv_step.specs.declared.step.Step.TheVariants as step;
ghost use Rattle.hv_guest_steps.specs.Additions.{CanBe, IsAdded, LeadsTo, MayAdd, MayNotAdd, add_carry, device_got, not_added_carry, region_at};
ghost use Rattle.hv_guest_steps.specs.Regions.{ShowWithin};

use crate::handed::{region_handed, remembered};
use crate::row::{GuestRow, NotAdded, refusal_of, stopped_by, window_of};
use hv_answer::Reply;
use hv_body::{BodyOf, BodyRoom};
use hv_dir::ShelfOf;
use hv_emu::Emulator;
use hv_handed::Handed;
use hv_region::{Form, RegionPlan, Window, WindowList};
use hv_rules::searches_find_what_the_rules_name;
use hv_signals::{Signals, changes};
use hv_space::Space;
use std::alloc::{AllocError, Global};
use std::snapshot::Snapshot;

/// Refuses to add a region.
pub fn not_added<E: Emulator>(at: GuestRow, plan: &RegionPlan, why: NotAdded) -> (Reply, Handed<E>)
    ensures shelf { (s : Add) (windows : List Window) (devices : List DevState)
        → MayNotAdd windows devices (region_at at plan.now) why
        → ShelfTakes (step.Add s) result.0 (given E.state result.1.value) devices devices }
    ensures space { (s : Add) (space : SpaceState) (devices : List DevState)
        → s.generation ≡ Some at.guest
        → MayNotAdd space.windows devices (region_at at plan.now) why
        → SpaceTakes (step.Add s) result.0 (given E.state result.1.value) space space }
    ensures handed { given E.state result.1.value ≡ not_added_carry (region_at at plan.now) why }
{
    let plan = Some((Snapshot::of(plan), at.vcpus));
    (
        Reply::Add(Err(refusal_of(why))),
        region_handed(at.row, plan, stopped_by(why), None, None, None),
    )
}

/// Adds a region to a guest that is admitted: its window comes into the space, and it gets its
/// device, its memory or its part of an area. The body is that of the row, or of the target of an
/// alias, which gets the alias's window.
pub fn add<E: Emulator>(
    alloc: Global,
    shelf: &mut ShelfOf<E>,
    space: &mut Space,
    body: &mut BodyOf<E>,
    at: GuestRow,
    plan: &RegionPlan,
    target: Option<(u8, u64)>,
) -> Result<(Reply, Handed<E>), AllocError>
    requires can_be { CanBe (region_at at plan.now) }
    requires may_add { MayAdd space.old.windows (devices_of E.state shelf.old)
        (region_at at plan.now) target }
    ensures taken { IfOk result (λ made. IsAdded at.guest made.0 (given E.state made.1.value)
        (devices_of E.state shelf.old) (devices_of E.state shelf.new) space.old space.new
        (seen E.state body.old) (seen E.state body.new)) }
    ensures handed { IfOk result (λ made. given E.state made.1.value
        ≡ add_carry (region_at at plan.now) target
        (device_got (devices_of E.state shelf.old) plan.now.form)) }
    ensures kept { OnErr result ((shelf.new ≡ shelf.old) × (space.new ≡ space.old)
        × (body.new ≡ body.old)) }
    ensures within { ShowWithin space.old.windows → ShowWithin space.new.windows }
{
    let before = Signals::of(body);
    let handed = make(alloc, shelf, body, at, plan, target)?;
    enter(space, at, plan, target);
    let changed = changes(before, Signals::of(body));
    Ok((Reply::Add(Ok(changed)), handed))
}

/// Makes the body of a region, or adds the window of an alias to the body of its target.
fn make<E: Emulator>(
    alloc: Global,
    shelf: &mut ShelfOf<E>,
    body: &mut BodyOf<E>,
    at: GuestRow,
    plan: &RegionPlan,
    target: Option<(u8, u64)>,
) -> Result<Handed<E>, AllocError>
    requires can_be { CanBe (region_at at plan.now) }
    requires leads { LeadsTo target plan.now.form }
    requires device { IsOk (device_for (devices_of E.state shelf.old) plan.now.form) }
    ensures body { IfOk result (λ handed. seen E.state body.new ≡ built (region_at at plan.now)
        (device_got (devices_of E.state shelf.old) plan.now.form) target
        (seen E.state body.old)) }
    ensures shelf { IfOk result (λ handed. devices_of E.state shelf.new
        ≡ without_device (devices_of E.state shelf.old) plan.now.form) }
    ensures handed { IfOk result (λ handed. given E.state handed.value
        ≡ add_carry (region_at at plan.now) target
        (device_got (devices_of E.state shelf.old) plan.now.form)) }
    ensures kept { OnErr result ((shelf.new ≡ shelf.old) × (body.new ≡ body.old)) }
{
    match target {
        Some(target) => Ok(lead(body, at, plan, target)),
        None => build(alloc, shelf, body, at, plan),
    }
}

/// Adds the window of an alias to the body of its target.
fn lead<E: Emulator>(
    body: &mut BodyOf<E>,
    at: GuestRow,
    plan: &RegionPlan,
    target: (u8, u64),
) -> Handed<E>
    ensures body { seen E.state body.new
        ≡ with_window (seen E.state body.old) (window_of (region_at at plan.now) (Some target)) }
    ensures handed { given E.state result.value
        ≡ add_carry (region_at at plan.now) (Some target) None }
{
    body.add_window(window_of(at, plan, Some(target)));
    add_handed(at, plan, Some(target), None)
}

/// Makes the body of a region that is no alias, in memory that is taken before anything changes.
fn build<E: Emulator>(
    alloc: Global,
    shelf: &mut ShelfOf<E>,
    body: &mut BodyOf<E>,
    at: GuestRow,
    plan: &RegionPlan,
) -> Result<Handed<E>, AllocError>
    requires can_be { CanBe (region_at at plan.now) }
    requires leads { LeadsTo None plan.now.form }
    requires device { IsOk (device_for (devices_of E.state shelf.old) plan.now.form) }
    ensures body { IfOk result (λ handed. seen E.state body.new ≡ built (region_at at plan.now)
        (device_got (devices_of E.state shelf.old) plan.now.form) None (seen E.state body.old)) }
    ensures shelf { IfOk result (λ handed. devices_of E.state shelf.new
        ≡ without_device (devices_of E.state shelf.old) plan.now.form) }
    ensures handed { IfOk result (λ handed. given E.state handed.value
        ≡ add_carry (region_at at plan.now) None
        (device_got (devices_of E.state shelf.old) plan.now.form)) }
    ensures kept { OnErr result ((shelf.new ≡ shelf.old) × (body.new ≡ body.old)) }
{
    let room = BodyRoom::new(alloc, plan)?;
    let part = take_device(shelf, &plan.form);
    let handed = add_handed(at, plan, None, remembered(&part));
    body.fill(at.guest.birth, at.row, room, part, at.vcpus);
    Ok(handed)
}

/// Takes the device of a region of a form out of the pool, if it is to have one.
fn take_device<E: Emulator>(shelf: &mut ShelfOf<E>, form: &Form) -> Option<E>
    requires { IsOk (device_for (devices_of E.state shelf.old) form.now) }
    ensures device { device_for (devices_of E.state shelf.old) form.now
        ≡ Ok (option_map E.state result) }
    ensures left { devices_of E.state shelf.new
        ≡ without_device (devices_of E.state shelf.old) form.now }
{
    match form {
        Form::Device(names) => shelf.take(names).ok(),
        _ => None,
    }
}

/// What is handed over of a region that is added.
fn add_handed<E: Emulator>(
    at: GuestRow,
    plan: &RegionPlan,
    target: Option<(u8, u64)>,
    device: Option<Snapshot<E>>,
) -> Handed<E>
    ensures { given E.state result.value ≡ add_carry (region_at at plan.now) target
        (option_map (λ device. E.state device.value) device) }
{
    let snapshot = Some((Snapshot::of(plan), at.vcpus));
    region_handed(at.row, snapshot, None, target, device, plan.parent)
}

/// Puts the window of a region into the space. If the region is the guest's clock, that is live
/// from then on.
fn enter(space: &mut Space, at: GuestRow, plan: &RegionPlan, target: Option<(u8, u64)>)
    requires can_be { CanBe (region_at at plan.now) }
    requires allowed { refusal_in space.old.windows (region_at at plan.now) ≡ None }
    ensures { space.new ≡ with_region space.old target (region_at at plan.now) }
{
    put(space.windows_mut(), window_of(at, plan, target));
    if plan.clock {
        space.set_clock(Some((at.row, at.guest.birth)));
    }
}

/// Puts a window that meets no other among them.
fn put(windows: &mut WindowList, window: Window)
    requires window { IsWindow window }
    requires free { HasNone windows.old window.owner }
    requires apart { least_row (filter (meets window) windows.old) ≡ None }
    ensures { windows.new ≡ put_in_order window windows.old }
{
    searches_find_what_the_rules_name();
    let _added = windows.add(window);
    // Where the window was added, it stands by its address.
    let _first = windows.at(0);
}
