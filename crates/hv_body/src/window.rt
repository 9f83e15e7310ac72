//! Which window holds an access, and which windows are added.
ghost use Rattle.std.specs.Prelude.{◌≡◌, ◌≤◌, ◌<◌, ◌==◌, Contains, IfSome, if◌then◌else◌};
ghost use Rattle.std.specs.List.{find, list_any};
ghost use Rattle.hv_region.specs.Windows.{Holds, HasNone};
ghost use Rattle.hv_text.specs.declared.limits.TheConstants.{GUEST_REGIONS};
ghost use Rattle.hv_body.specs.Windows.{holds, lies_apart, is_new_owner, lies_within, put_in_order};

use crate::place::Place;
use hv_region::{Window, WindowList};
use hv_text::GUEST_REGIONS;

/// The window that holds an access.
pub fn window_for(windows: &WindowList, place: Place) -> Option<Window>
    requires { 1 ≤ place.size }
    ensures value { result ≡ find (holds place) windows.now }
    ensures there { IfSome result (Contains windows.now) }
    ensures holds { IfSome result (λ window. Holds window place.kind place.addr place.size) }
{
    // Of windows in their order no two hold one access.
    let _first = windows.at(0);
    let Some(window) = windows.find(place.kind, place.addr, place.size as u64) else {
        return None;
    };
    if window.birth == place.birth {
        Some(window)
    } else {
        None
    }
}

/// Whether a region has a window there.
fn has_window(windows: &WindowList, owner: u8) -> bool
    ensures { result ≡ list_any (λ there. there.owner == owner) windows.now }
{
    let mut place = 0;
    'others: while let Some(there) = windows.at(place) {
        if there.owner == owner {
            return true;
        }
        place += 1;
    }
    false
}

/// Whether a window belongs to a region that has none there.
pub fn is_new_owner(windows: &WindowList, window: &Window) -> bool
    ensures { result ≡ is_new_owner windows.now window.now }
{
    (window.owner as usize) < GUEST_REGIONS && !has_window(windows, window.owner)
}

/// Whether a window shows some of a region of so many bytes, and nothing behind it.
pub fn lies_within(size: u64, window: &Window) -> bool
    ensures { result ≡ lies_within size window.now }
{
    window.size >= 1 && window.size <= size && window.offset <= size - window.size
}

/// Adds a window where it lies apart from the others.
pub fn put(windows: &mut WindowList, window: Window)
    requires some { 1 ≤ window.size }
    requires owner { window.owner < GUEST_REGIONS }
    requires free { HasNone windows.old window.owner }
    ensures { windows.new
        ≡ (if lies_apart windows.old window then put_in_order window windows.old else windows.old) }
{
    let _refused = windows.add(window);
    // Where the window was added, it stands by its address.
    let _first = windows.at(0);
}
