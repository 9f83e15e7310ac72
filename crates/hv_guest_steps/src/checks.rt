//! What an addition comes to, by reading.
ghost use Rattle.std.specs.Prelude.{◌≡◌, List, MatchResult, None, false, true};
ghost use Rattle.std.specs.Result.{is_ok};
ghost use Rattle.hv_dir.specs.Pool.{devices_of};
ghost use Rattle.hv_emu.specs.Device.{DevState};
ghost use Rattle.hv_rules.specs.Shelf.{device_for};
ghost use Rattle.hv_rules.specs.Space.{lacks_target, refusal_in, target_at, target_of};
ghost use Rattle.hv_guest_steps.specs.Additions.{CanBe, MayAdd, MayNotAdd, region_at};
ghost use Rattle.hv_guest_steps.specs.Regions.{ShowWithin};

use crate::meeting::least_met;
use crate::row::{GuestRow, NotAdded, window_of};
use crate::search::window_of_row;
use hv_dir::ShelfOf;
use hv_emu::Emulator;
use hv_region::{Form, RegionPlan, WindowList};
use hv_rules::searches_find_what_the_rules_name;
use hv_space::Space;

/// What the addition of a region comes to: the row and the offset to which an alias leads, or why
/// the region isn't added. The body that is changed is that of this row, or else of the region's.
pub fn addition<E: Emulator>(
    space: &Space,
    shelf: &ShelfOf<E>,
    at: GuestRow,
    plan: &RegionPlan,
) -> Result<Option<(u8, u64)>, NotAdded>
    requires can_be { CanBe (region_at at plan.now) }
    requires within { ShowWithin space.now.windows }
    ensures { MatchResult result
        (MayAdd space.now.windows (devices_of E.state shelf.now) (region_at at plan.now))
        (MayNotAdd space.now.windows (devices_of E.state shelf.now) (region_at at plan.now)) }
{
    let target = allowed_target(space.windows(), at, plan)?;
    if has_device(shelf, &plan.form) {
        Ok(target)
    } else {
        Err(NotAdded::NoEmulator)
    }
}

/// The target of a region that is an alias, or why the space stops the addition.
fn allowed_target(
    windows: &WindowList,
    at: GuestRow,
    plan: &RegionPlan,
) -> Result<Option<(u8, u64)>, NotAdded>
    requires can_be { CanBe (region_at at plan.now) }
    requires within { ShowWithin windows.now }
    ensures { MatchResult result
        (λ target. (refusal_in windows.now (region_at at plan.now) ≡ None)
        × (target ≡ target_of windows.now plan.now plan.now.form))
        (λ why. (devices : List DevState)
        → MayNotAdd windows.now devices (region_at at plan.now) why) }
{
    if window_of_row(windows, at.row).is_some() {
        return Err(NotAdded::Live);
    }
    if let Some(row) = least_met(windows, window_of(at, plan, None)) {
        return Err(NotAdded::Overlap(row));
    }
    alias_target(windows, plan)
}

/// The target of a region that is an alias.
fn alias_target(windows: &WindowList, plan: &RegionPlan) -> Result<Option<(u8, u64)>, NotAdded>
    requires within { ShowWithin windows.now }
    ensures { MatchResult result
        (λ target. (lacks_target windows.now plan.now plan.now.form ≡ false)
        × (target ≡ target_of windows.now plan.now plan.now.form))
        (λ why. (lacks_target windows.now plan.now plan.now.form ≡ true)
        × (why ≡ NotAdded.AliasTarget)) }
{
    match &plan.form {
        Form::Alias(address) => match target_at(windows, plan, *address) {
            Some(target) => Ok(Some(target)),
            None => Err(NotAdded::AliasTarget),
        },
        _ => Ok(None),
    }
}

/// The row of the region's own window that holds the range of an alias, and where in it the range
/// begins.
fn target_at(windows: &WindowList, plan: &RegionPlan, address: u64) -> Option<(u8, u64)>
    requires within { ShowWithin windows.now }
    ensures { result ≡ target_at windows.now plan.now address }
{
    searches_find_what_the_rules_name();
    // Of windows in their order no two hold one range.
    let _first = windows.at(0);
    match windows.alias_of(plan.kind, address, plan.size) {
        Ok(window) => Some((window.owner, address - window.base + window.offset)),
        Err(_) => None,
    }
}

/// Whether the pool has a device for a region of a form, where it is to have one.
fn has_device<E: Emulator>(shelf: &ShelfOf<E>, form: &Form) -> bool
    ensures { result ≡ is_ok (device_for (devices_of E.state shelf.now) form.now) }
{
    match form {
        Form::Device(names) => shelf.has(names),
        _ => true,
    }
}
