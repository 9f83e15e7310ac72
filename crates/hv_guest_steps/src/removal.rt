//! Regions that are dropped.
ghost use Rattle.std.specs.Prelude.{◌≡◌, ◌<◌, ℕ, List, find, Some, None, Ok, Err, IfOk, OnErr};
ghost use Rattle.std.specs.Option.{option_map, option_map_or};
ghost use Rattle.hv_answer.specs.declared.reply.Reply.TheVariants as reply;
ghost use Rattle.hv_body.specs.Body.{device_of, seen};
ghost use Rattle.hv_dir.specs.Pool.{devices_of, given_back};
ghost use Rattle.hv_emu.specs.Device.{DevState};
ghost use Rattle.hv_handed.specs.Given.{given};
ghost use Rattle.hv_handed.specs.Takes.{ShelfTakes, SpaceTakes};
ghost use Rattle.hv_rules.specs.Body.{dropped, unless_alias};
ghost use Rattle.hv_rules.specs.Space.{alias_in, is_of, without_region};
ghost use Rattle.hv_space.specs.Space.{SpaceState};
ghost use Rattle.hv_step.specs.declared.step.Drop.{Drop};
ghost use Rattle.hv_step.specs.declared.step.Step.TheVariants as step;
ghost use Rattle.hv_guest_steps.specs.Regions.{IsDropped, ShowWithin, drop_carry, not_live_carry};

use crate::handed::{region_handed, remembered};
use crate::search::window_of_row;
use hv_answer::Reply;
use hv_body::BodyOf;
use hv_dir::ShelfOf;
use hv_emu::Emulator;
use hv_handed::Handed;
use hv_refusal::Refusal;
use hv_region::Window;
use hv_signals::{Signals, changes, parent_of};
use hv_space::Space;
use std::alloc::{AllocError, Global};

/// The window of a row, which leads to the body that a removal changes; None while the row isn't
/// live.
pub fn live_window(space: &Space, row: u8) -> Option<Window>
    ensures { result ≡ find (is_of row) space.now.windows }
{
    window_of_row(space.windows(), row)
}

/// Refuses to drop a region that isn't live.
pub fn not_live<E: Emulator>(row: u8) -> (Reply, Handed<E>)
    ensures shelf { (s : Drop) (devices : List DevState)
        → ShelfTakes (step.Drop s) result.0 (given E.state result.1.value) devices devices }
    ensures space { (s : Drop) (space : SpaceState) → find (is_of row) space.windows ≡ None
        → SpaceTakes (step.Drop s) result.0 (given E.state result.1.value) space space }
    ensures handed { given E.state result.1.value ≡ not_live_carry row }
{
    (
        Reply::Drop(Err(Refusal::NotLive)),
        region_handed(row, None, None, None, None, None),
    )
}

/// Drops a region of a guest that is admitted: its window and those that lead to it go, and its
/// device comes back to the pool. The body is that of the region, or of the target of an alias.
pub fn drop<E: Emulator>(
    alloc: Global,
    shelf: &mut ShelfOf<E>,
    space: &mut Space,
    body: &mut BodyOf<E>,
    row: u8,
    window: Window,
) -> Result<(Reply, Handed<E>), AllocError>
    requires { find (is_of row) space.old.windows ≡ Some window }
    ensures taken { IfOk result (λ made. IsDropped made.0 (given E.state made.1.value)
        (devices_of E.state shelf.old) (devices_of E.state shelf.new) space.old space.new
        (seen E.state body.old) (seen E.state body.new)) }
    ensures handed { IfOk result (λ made. given E.state made.1.value
        ≡ drop_carry row (alias_in window) (seen E.state body.old)) }
    ensures shelf_kept { OnErr result (shelf.new.parts ≡ shelf.old.parts) }
    ensures kept { OnErr result ((space.new ≡ space.old) × (body.new ≡ body.old)) }
    ensures within { ShowWithin space.old.windows → ShowWithin space.new.windows }
{
    let before = Signals::of(body);
    let handed = undo(alloc, shelf, body, row, window)?;
    forget(space, row);
    let changed = changes(before, Signals::of(body));
    Ok((Reply::Drop(Ok(changed)), handed))
}

/// Empties a region's body, or takes the window of an alias away from the body of its target.
fn undo<E: Emulator>(
    alloc: Global,
    shelf: &mut ShelfOf<E>,
    body: &mut BodyOf<E>,
    row: u8,
    window: Window,
) -> Result<Handed<E>, AllocError>
    ensures body { IfOk result (λ handed. seen E.state body.new
        ≡ dropped row (alias_in window) (seen E.state body.old)) }
    ensures shelf { IfOk result (λ handed. devices_of E.state shelf.new
        ≡ option_map_or (given_back (devices_of E.state shelf.old))
        (unless_alias (alias_in window) (device_of (seen E.state body.old)))
        (devices_of E.state shelf.old)) }
    ensures handed { IfOk result (λ handed. given E.state handed.value
        ≡ drop_carry row (alias_in window) (seen E.state body.old)) }
    ensures shelf_kept { OnErr result (shelf.new.parts ≡ shelf.old.parts) }
    ensures kept { OnErr result (body.new ≡ body.old) }
{
    if window.owner == window.target {
        return clear(alloc, shelf, body, row);
    }
    body.remove_window(row);
    let target = Some((window.target, window.offset));
    Ok(region_handed(row, None, None, target, None, None))
}

/// Empties a region's body, and gives its device back to the pool.
fn clear<E: Emulator>(
    alloc: Global,
    shelf: &mut ShelfOf<E>,
    body: &mut BodyOf<E>,
    row: u8,
) -> Result<Handed<E>, AllocError>
    ensures empty { IfOk result (λ handed. seen E.state body.new ≡ None) }
    ensures shelf { IfOk result (λ handed. devices_of E.state shelf.new
        ≡ option_map_or (given_back (devices_of E.state shelf.old))
        (device_of (seen E.state body.old)) (devices_of E.state shelf.old)) }
    ensures handed { IfOk result (λ handed. given E.state handed.value
        ≡ drop_carry row None (seen E.state body.old)) }
    ensures shelf_kept { OnErr result (shelf.new.parts ≡ shelf.old.parts) }
    ensures kept { OnErr result (body.new ≡ body.old) }
{
    shelf.make_room(alloc)?;
    let parent = parent_of(body);
    let part = body.clear();
    let device = remembered(&part);
    give_back(shelf, part);
    Ok(region_handed(row, None, None, None, device, parent))
}

/// Gives a device back to the pool, if there is one.
fn give_back<E: Emulator>(shelf: &mut ShelfOf<E>, part: Option<E>)
    requires { 0 < shelf.old.room }
    ensures { devices_of E.state shelf.new
        ≡ option_map_or (given_back (devices_of E.state shelf.old)) (option_map E.state part)
        (devices_of E.state shelf.old) }
{
    if let Some(part) = part {
        shelf.give_back(part);
    }
}

/// Takes the window of a row away, and those that lead to it. Its clock stops.
fn forget(space: &mut Space, row: u8)
    ensures { space.new ≡ without_region space.old row }
{
    let windows = space.windows_mut();
    windows.remove_owner(row);
    windows.remove_target(row);
    if let Some((clock, _)) = space.clock() {
        if clock == row {
            space.set_clock(None);
        }
    }
}
