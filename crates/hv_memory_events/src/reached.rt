//! What a step reaches on a board.
ghost use Rattle.std.specs.Prelude.{◌≡◌, ◌<◌, ◌++◌, Some, OnOk};
ghost use Rattle.hv_board.specs.Board.{IsWhole};
ghost use Rattle.hv_board_steps.specs.Sound.{IsSound};
ghost use Rattle.hv_rules.specs.Footprint.{reached_by, shared_area};
ghost use Rattle.hv_text.specs.declared.limits.TheConstants.{SLOTS};
ghost use Rattle.hv_memory_events.specs.Reached.{HasBytesOn, IsArea, LeadsToRow, area_on, area_shown, window_on};

use hv_board::Board;
use hv_device_steps::memory_window;
use hv_emu::Emulator;
use hv_event::CellId;
use hv_kinds::Generation;
use hv_memory_steps::area_shown;
use hv_region::Window;
use std::alloc::AllocError;

/// The memory window of a guest that holds so many bytes from an address on; a file that is missing
/// has no size.
pub(crate) fn window_on<E: Emulator>(
    board: &Board<E>,
    guest: Generation,
    address: u64,
    size: Option<u64>,
) -> Option<Window>
    requires whole { IsWhole E.state board.now }
    requires sound { IsSound board.now }
    requires slot { guest.slot < SLOTS }
    ensures window { result ≡ window_on board.now guest address size }
    ensures row { LeadsToRow result }
{
    let size = size?;
    memory_window(board.space(guest.slot), address, size)
}

/// The area of which a window shows so many bytes from an address on, and the offset there.
pub(crate) fn area_on<E: Emulator>(
    board: &Board<E>,
    guest: Generation,
    window: Option<Window>,
    address: u64,
    size: Option<u64>,
) -> Option<(u8, u64)>
    requires whole { IsWhole E.state board.now }
    requires sound { IsSound board.now }
    requires slot { guest.slot < SLOTS }
    requires row { LeadsToRow window }
    ensures area { result ≡ area_on E.state board.now guest window address size }
    ensures there { IsArea board.now result }
    ensures bytes { HasBytesOn board.now size result }
{
    let window = window?;
    let size = size?;
    area_in(board, guest, window, address, size)
}

/// The same of a window that is there and bytes that are.
fn area_in<E: Emulator>(
    board: &Board<E>,
    guest: Generation,
    window: Window,
    address: u64,
    size: u64,
) -> Option<(u8, u64)>
    requires whole { IsWhole E.state board.now }
    requires sound { IsSound board.now }
    requires slot { guest.slot < SLOTS }
    requires row { LeadsToRow (Some window) }
    ensures area { result ≡ area_shown E.state board.now guest (Some window) address size }
    ensures there { IsArea board.now result }
    ensures bytes { HasBytesOn board.now (Some size) result }
{
    let body = board.body(guest.slot, window.target);
    // A body keeps the rules of its plan.
    let _plan = body.plan();
    area_shown(body, window, address, size)
}

/// Adds the body and the area that a step reaches to the components that it touches.
pub(crate) fn push_reached(
    xs: &mut Vec<CellId>,
    guest: Generation,
    window: Option<Window>,
    area: Option<(u8, u64)>,
) -> Result<(), AllocError>
    ensures { OnOk result (xs.new.items ≡ xs.old.items ++ reached_by guest window area) }
{
    if let Some(window) = window {
        xs.push(CellId::Body(guest.slot, window.target))?;
        push_area(xs, area)?;
    }
    Ok(())
}

/// Adds an area, if there is one.
fn push_area(xs: &mut Vec<CellId>, area: Option<(u8, u64)>) -> Result<(), AllocError>
    ensures { OnOk result (xs.new.items ≡ xs.old.items ++ shared_area area) }
{
    if let Some((area, _)) = area {
        xs.push(CellId::Area(area))?;
    }
    Ok(())
}
