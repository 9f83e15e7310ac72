//! Searches among the windows of a guest.
ghost use Rattle.std.specs.Prelude.{◌≡◌, find};
ghost use Rattle.hv_rules.specs.Space.{is_of};

use hv_region::{Window, WindowList};

/// The window of a row.
pub fn window_of_row(windows: &WindowList, row: u8) -> Option<Window>
    ensures { result ≡ find (is_of row) windows.now }
{
    let mut place = 0;
    'others: while let Some(window) = windows.at(place) {
        if window.owner == row {
            return Some(window);
        }
        place += 1;
    }
    None
}
