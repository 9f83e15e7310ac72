//! Lists of guests and of windows printed.
ghost use Rattle.std.specs.Prelude.{◌≡◌, ◌++◌, OnOk, OnErr, IfOk};
ghost use Rattle.hv_listing.specs.Listing.{guest_text, rows_text, place_text, window_text, further_entries, guests_text, windows_text};

use crate::guest::{GuestList, ListedGuest};
use crate::window::{ListedWindow, WindowList};
use hv_data::{push_address, push_address_type, push_stage};
use hv_text::{Bytes, push_decimal};
use std::alloc::{AllocError, Global};

fn push_guest(alloc: Global, to: &mut Bytes, guest: &ListedGuest) -> Result<(), AllocError>
    ensures { OnOk result (to.new ≡ to.old ++ guest_text guest.now) }
{
    to.append(guest.name.as_slice())?;
    to.append(b":")?;
    push_decimal(alloc, to, guest.slot as u64)?;
    to.append(b":")?;
    push_stage(to, guest.stage)
}

fn push_further_guests(
    alloc: Global,
    to: &mut Bytes,
    guests: &[ListedGuest],
) -> Result<(), AllocError>
    ensures { OnOk result (to.new ≡ to.old ++ further_entries guest_text guests.now) }
{
    for guest in guests {
        to.append(b",")?;
        push_guest(alloc, to, guest)?;
    }
    Ok(())
}

fn guests_line(alloc: Global, guests: &[ListedGuest]) -> Result<Bytes, AllocError>
    ensures { IfOk result (λ line. line ≡ guests_text guests.now) }
{
    let mut line = Bytes::from_vec(Vec::new(alloc));
    match guests.split_first() {
        Some((first, others)) => {
            push_guest(alloc, &mut line, first)?;
            push_further_guests(alloc, &mut line, others)?;
        }
        None => line.append(b"-")?,
    }
    Ok(line)
}

/// Appends a list of guests. At `Err` nothing has changed.
pub fn print_guests(alloc: Global, to: &mut Bytes, guests: &GuestList) -> Result<(), AllocError>
    ensures ok { OnOk result (to.new ≡ to.old ++ guests_text guests.now) }
    ensures err { OnErr result (to.new ≡ to.old) }
{
    let line = guests_line(alloc, guests.as_slice())?;
    to.append(line.as_slice())
}

/// The rows of a window's owner and target, and its type.
fn push_rows(alloc: Global, to: &mut Bytes, window: &ListedWindow) -> Result<(), AllocError>
    ensures { OnOk result (to.new ≡ to.old ++ rows_text window.now) }
{
    push_decimal(alloc, to, window.owner as u64)?;
    to.append(b":")?;
    push_decimal(alloc, to, window.target as u64)?;
    to.append(b":")?;
    push_address_type(to, window.address_type)
}

/// A window's base, its size, and its offset in the target.
fn push_place(alloc: Global, to: &mut Bytes, window: &ListedWindow) -> Result<(), AllocError>
    ensures { OnOk result (to.new ≡ to.old ++ place_text window.now) }
{
    push_address(alloc, to, window.base)?;
    to.append(b":")?;
    push_address(alloc, to, window.size)?;
    to.append(b":")?;
    push_address(alloc, to, window.offset)
}

fn push_window(alloc: Global, to: &mut Bytes, window: &ListedWindow) -> Result<(), AllocError>
    ensures { OnOk result (to.new ≡ to.old ++ window_text window.now) }
{
    push_rows(alloc, to, window)?;
    to.append(b":")?;
    push_place(alloc, to, window)
}

fn push_further_windows(
    alloc: Global,
    to: &mut Bytes,
    windows: &[ListedWindow],
) -> Result<(), AllocError>
    ensures { OnOk result (to.new ≡ to.old ++ further_entries window_text windows.now) }
{
    for window in windows {
        to.append(b",")?;
        push_window(alloc, to, window)?;
    }
    Ok(())
}

fn windows_line(alloc: Global, windows: &[ListedWindow]) -> Result<Bytes, AllocError>
    ensures { IfOk result (λ line. line ≡ windows_text windows.now) }
{
    let mut line = Bytes::from_vec(Vec::new(alloc));
    match windows.split_first() {
        Some((first, others)) => {
            push_window(alloc, &mut line, first)?;
            push_further_windows(alloc, &mut line, others)?;
        }
        None => line.append(b"-")?,
    }
    Ok(line)
}

/// Appends a list of windows. At `Err` nothing has changed.
pub fn print_windows(alloc: Global, to: &mut Bytes, windows: &WindowList) -> Result<(), AllocError>
    ensures ok { OnOk result (to.new ≡ to.old ++ windows_text windows.now) }
    ensures err { OnErr result (to.new ≡ to.old) }
{
    let line = windows_line(alloc, windows.as_slice())?;
    to.append(line.as_slice())
}
