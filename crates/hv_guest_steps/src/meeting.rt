//! Windows that a new one would meet.
ghost use Rattle.std.specs.Prelude.{◌≡◌, Some, filter, if◌then◌else◌};
ghost use Rattle.hv_body.specs.Windows.{meets};
ghost use Rattle.hv_region.specs.Windows.{IsInRange};
ghost use Rattle.hv_rules.specs.Space.{least_row, lesser};

use hv_region::{Window, WindowList};

/// The least row whose window meets this one.
pub fn least_met(windows: &WindowList, window: Window) -> Option<u8>
    requires { IsInRange window }
    ensures { result ≡ least_row (filter (meets window) windows.now) }
{
    let mut least = None;
    let mut place = 0;
    'others: while let Some(there) = windows.at(place) {
        least = lesser_met(window, there, least);
        place += 1;
    }
    least
}

/// The lesser of a row that was met before and that of a window, if it is met too.
fn lesser_met(window: Window, there: Window, least: Option<u8>) -> Option<u8>
    requires window { IsInRange window }
    requires there { IsInRange there }
    ensures { result ≡ (if meets window there then Some (lesser there.owner least) else least) }
{
    if meets(window, there) {
        Some(lesser(there.owner, least))
    } else {
        least
    }
}

/// The lesser of a row and of another, if there is one.
fn lesser(row: u8, other: Option<u8>) -> u8
    ensures { result ≡ lesser row other }
{
    match other {
        Some(other) => row.min(other),
        None => row,
    }
}

/// Whether some address lies in both windows.
fn meets(window: Window, there: Window) -> bool
    requires window { IsInRange window }
    requires there { IsInRange there }
    ensures { result ≡ meets window there }
{
    there.kind == window.kind
        && there.base < window.base + window.size
        && window.base < there.base + there.size
}
