//! Guests and the windows of their regions.
ghost use Rattle.std.specs.Prelude.{◌≡◌, ◌++◌, ◌∷◌, OnOk};
ghost use Rattle.hv_data.specs.Text.{address_text};
ghost use Rattle.hv_model.specs.Transcript.{answer_shown, done_shown, guest_shown, guests_shown, region_name, target_shown, window_shown, windows_shown};

use crate::lines::{show_done, show_refused};
use hv_data::{push_address, push_address_type, push_stage};
use hv_listing::{GuestList, ListedGuest, ListedWindow, WindowList};
use hv_refusal::Refusal;
use hv_region::RegionPlan;
use hv_text::{Bytes, push_decimal};
use std::alloc::{AllocError, Global};

fn push_guest(alloc: Global, to: &mut Bytes, guest: &ListedGuest) -> Result<(), AllocError>
    ensures { OnOk result (to.new ≡ to.old ++ guest_shown guest.now) }
{
    push_decimal(alloc, to, u64::from(guest.slot))?;
    to.append(b" ")?;
    to.append(guest.name.as_slice())?;
    to.append(b" ")?;
    push_stage(to, guest.stage)?;
    to.append(b"\n")
}

fn push_guests(alloc: Global, to: &mut Bytes, guests: &[ListedGuest]) -> Result<(), AllocError>
    ensures { OnOk result (to.new ≡ to.old ++ guests_shown guests.now) }
{
    for guest in guests {
        push_guest(alloc, to, guest)?;
    }
    Ok(())
}

/// Shows the guests of a board.
pub(crate) fn show_guests(
    alloc: Global,
    to: &mut Bytes,
    guests: &GuestList,
) -> Result<(), AllocError>
    ensures { OnOk result (to.new ≡ to.old ++ done_shown (guests_shown guests.now)) }
{
    push_guests(alloc, to, guests.as_slice())?;
    show_done(to)
}

// The name of the region in a row.
fn push_name(to: &mut Bytes, regions: &[RegionPlan], row: u8) -> Result<(), AllocError>
    ensures { OnOk result (to.new ≡ to.old ++ region_name regions.now row) }
{
    match regions.get(row as usize) {
        Some(region) => to.append(region.name.as_slice()),
        None => Ok(()),
    }
}

// The region for which an alias stands, and where it begins there.
fn push_target(
    alloc: Global,
    to: &mut Bytes,
    regions: &[RegionPlan],
    window: ListedWindow,
) -> Result<(), AllocError>
    ensures { OnOk result (to.new ≡ to.old ++ target_shown regions.now window) }
{
    if window.owner == window.target {
        return Ok(());
    }
    to.append(b" of ")?;
    push_name(to, regions, window.target)?;
    to.append(b"+")?;
    push_address(alloc, to, window.offset)
}

// Where a window begins, and its size.
fn push_span(alloc: Global, to: &mut Bytes, base: u64, size: u64) -> Result<(), AllocError>
    ensures { OnOk result
        (to.new ≡ to.old ++ 32 ∷ address_text base ++ 32 ∷ address_text size) }
{
    to.append(b" ")?;
    push_address(alloc, to, base)?;
    to.append(b" ")?;
    push_address(alloc, to, size)
}

fn push_window(
    alloc: Global,
    to: &mut Bytes,
    regions: &[RegionPlan],
    window: ListedWindow,
) -> Result<(), AllocError>
    ensures { OnOk result (to.new ≡ to.old ++ window_shown regions.now window) }
{
    push_name(to, regions, window.owner)?;
    to.append(b" ")?;
    push_address_type(to, window.address_type)?;
    push_span(alloc, to, window.base, window.size)?;
    push_target(alloc, to, regions, window)?;
    to.append(b"\n")
}

fn push_windows(
    alloc: Global,
    to: &mut Bytes,
    regions: &[RegionPlan],
    windows: &[ListedWindow],
) -> Result<(), AllocError>
    ensures { OnOk result (to.new ≡ to.old ++ windows_shown regions.now windows.now) }
{
    for window in windows {
        push_window(alloc, to, regions, *window)?;
    }
    Ok(())
}

/// Shows the windows of a guest with these regions.
pub(crate) fn show_windows(
    alloc: Global,
    to: &mut Bytes,
    regions: &[RegionPlan],
    answer: &Result<WindowList, Refusal>,
) -> Result<(), AllocError>
    ensures { OnOk result
        (to.new ≡ to.old ++ answer_shown (windows_shown regions.now) answer.now) }
{
    match answer {
        Ok(windows) => {
            push_windows(alloc, to, regions, windows.as_slice())?;
            show_done(to)
        }
        Err(why) => show_refused(alloc, to, why),
    }
}
