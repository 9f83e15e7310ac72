//! Regions of guests that are dropped.
ghost use Rattle.std.specs.Prelude.{◌≡◌, ◌<◌, ◌≤◌, ℕ, None, Some, IfErr, IfOk, IfSome, OnErr, find, map};
ghost use Rattle.hv_board.specs.Board.{IsWhole};
ghost use Rattle.hv_board_steps.specs.Granted.{IsGrantedAt, IsGrantedOn};
ghost use Rattle.hv_board_steps.specs.Happened.{Gives, IsHappened, IsHeldUp};
ghost use Rattle.hv_board_steps.specs.Sound.{IsSound};
ghost use Rattle.hv_board_steps.specs.Values.{space_on};
ghost use Rattle.hv_event.specs.declared.event.ActorId.{ActorId};
ghost use Rattle.hv_handed.specs.Given.{given};
ghost use Rattle.hv_parts.specs.Kinds.{AreOf};
ghost use Rattle.hv_parts.specs.Takes.{IsMadeAt};
ghost use Rattle.hv_parts.specs.Value.{valued};
ghost use Rattle.hv_region_steps.specs.Regions.{changed_row, space_in};
ghost use Rattle.hv_rules.specs.Space.{alias_in, is_of};
ghost use Rattle.hv_text.specs.declared.limits.TheConstants.{GREATEST_STAMP, GUEST_REGIONS, SLOTS};
ghost use Rattle.hv_region_events.specs.Regions.{IsDrop, OfRow, changed_parts, refused_parts};

use hv_board::{Board, Stop};
use hv_board_steps::{Happened, finish, slot_of};
use hv_emu::Emulator;
use hv_event::{ActorId, CellId};
use hv_guest_steps::live_window;
use hv_handed::Made;
use hv_kinds::Generation;
use hv_parts::Part;
use hv_region::Window;
use hv_region_steps::{drop_at, not_live_at};
use hv_step::Step;
use std::alloc::{AllocError, Global};

/// Drops a region of a guest that the directory admits, by a step of an actor with this stamp, or
/// shows that it isn't live.
pub fn drop_event<E: Emulator>(
    alloc: Global,
    board: &mut Board<E>,
    by: ActorId,
    own: u64,
    step: &Step,
    guest: Generation,
    row: u8,
) -> Result<Happened<E>, Stop>
    requires whole { IsWhole E.state board.old }
    requires sound { IsSound board.old }
    requires bounded { own ≤ GREATEST_STAMP }
    requires step { IsDrop step.now }
    requires row { row < GUEST_REGIONS }
    requires granted { IsGrantedOn board.old step.now (Some row) guest }
    ensures whole { IsWhole E.state board.new }
    ensures layout { board.new.layout ≡ board.old.layout }
    ensures happened { IfOk result (λ happened. IsHappened E.state by own step.now board.old
        board.new happened) }
    ensures gives { IfOk result (Gives E.state (OfRow row)) }
    ensures held_up { IfErr result (λ why. IsHeldUp E.state by own step.now (OfRow row) board.old
        board.new why) }
{
    let Step::Drop(drop) = step else {
        unreachable!();
    };
    let _slot = slot_of(board.directory(), drop.name.as_slice(), drop.stage, guest);
    match live_on(board, guest, row) {
        Some(window) => dropped(alloc, board, by, own, step, guest, row, window),
        None => not_live(board, by, own, step, guest, row),
    }
}

// The window of a row in the guest's space.
fn live_on<E: Emulator>(board: &Board<E>, guest: Generation, row: u8) -> Option<Window>
    requires whole { IsWhole E.state board.now }
    requires sound { IsSound board.now }
    requires slot { guest.slot < SLOTS }
    requires row { row < GUEST_REGIONS }
    ensures window { result ≡ find (is_of row) (space_on board.now guest.slot).windows }
    ensures row { IfSome result (λ window. changed_row row (alias_in window) < GUEST_REGIONS) }
{
    live_window(board.space(guest.slot), row)
}

// Drops a region that has this window.
fn dropped<E: Emulator>(
    alloc: Global,
    board: &mut Board<E>,
    by: ActorId,
    own: u64,
    step: &Step,
    guest: Generation,
    row: u8,
    window: Window,
) -> Result<Happened<E>, Stop>
    requires whole { IsWhole E.state board.old }
    requires bounded { own ≤ GREATEST_STAMP }
    requires step { IsDrop step.now }
    requires granted { IsGrantedOn board.old step.now (Some row) guest }
    requires slot { guest.slot < SLOTS }
    requires row { changed_row row (alias_in window) < GUEST_REGIONS }
    requires live { find (is_of row) (space_on board.old guest.slot).windows ≡ Some window }
    ensures whole { IsWhole E.state board.new }
    ensures layout { board.new.layout ≡ board.old.layout }
    ensures happened { IfOk result (λ happened. IsHappened E.state by own step.now board.old
        board.new happened) }
    ensures gives { IfOk result (Gives E.state (OfRow row)) }
    ensures held_up { IfErr result (λ why. IsHeldUp E.state by own step.now (OfRow row) board.old
        board.new why) }
{
    let slot = guest.slot;
    let xs = [
        CellId::Dir,
        CellId::Shelf,
        CellId::Space(slot),
        CellId::Body(slot, changed_row(row, window)),
    ];
    let mut lifted = board.lift(own, &xs)?;
    match drop_parts(alloc, step, guest, row, window, &mut lifted.parts) {
        Ok(made) => Ok(finish(board, lifted, by, own, &xs, step, made)),
        Err(error) => {
            board.put_back(lifted, &xs);
            Err(Stop::Memory(error))
        }
    }
}

// The row whose body a removal changes: that of the region, or of the target of an alias.
fn changed_row(row: u8, window: Window) -> u8
    ensures { result ≡ changed_row row (alias_in window) }
{
    if window.owner == window.target {
        row
    } else {
        window.target
    }
}

// Makes the step of a removal at the parts that it touches.
fn drop_parts<E: Emulator>(
    alloc: Global,
    step: &Step,
    guest: Generation,
    row: u8,
    window: Window,
    parts: &mut [Part<E>],
) -> Result<Made<E>, AllocError>
    requires step { IsDrop step.now }
    requires parts { AreOf (changed_parts guest (changed_row row (alias_in window)))
        (map (valued E.state) parts.old) }
    requires granted { IsGrantedAt (map (valued E.state) parts.old) step.now (Some row) guest }
    requires live { find (is_of row) (space_in (map (valued E.state) parts.old)).windows
        ≡ Some window }
    ensures made { IfOk result (λ made. (harts : ℕ) (by : ActorId) → IsMadeAt E.state harts by
        (changed_parts guest (changed_row row (alias_in window))) step.now made parts.old
        parts.new) }
    ensures gives { IfOk result (λ made. OfRow row made.reply (given E.state made.handed.value)) }
    ensures kept { OnErr result (map (valued E.state) parts.new ≡ map (valued E.state) parts.old) }
{
    match step {
        Step::Drop(drop) => drop_at(alloc, drop, row, window, parts),
        _ => unreachable!(),
    }
}

// Shows that a region isn't live.
fn not_live<E: Emulator>(
    board: &mut Board<E>,
    by: ActorId,
    own: u64,
    step: &Step,
    guest: Generation,
    row: u8,
) -> Result<Happened<E>, Stop>
    requires whole { IsWhole E.state board.old }
    requires bounded { own ≤ GREATEST_STAMP }
    requires step { IsDrop step.now }
    requires granted { IsGrantedOn board.old step.now (Some row) guest }
    requires slot { guest.slot < SLOTS }
    requires gone { find (is_of row) (space_on board.old guest.slot).windows ≡ None }
    ensures whole { IsWhole E.state board.new }
    ensures layout { board.new.layout ≡ board.old.layout }
    ensures happened { IfOk result (λ happened. IsHappened E.state by own step.now board.old
        board.new happened) }
    ensures gives { IfOk result (Gives E.state (OfRow row)) }
    ensures held_up { IfErr result (λ why. IsHeldUp E.state by own step.now (OfRow row) board.old
        board.new why) }
{
    let xs = [CellId::Dir, CellId::Shelf, CellId::Space(guest.slot)];
    let lifted = board.lift(own, &xs)?;
    let made = not_live_parts(step, guest, row, &lifted.parts);
    Ok(finish(board, lifted, by, own, &xs, step, made))
}

/// Makes the step of a region that isn't live at the parts that it touches.
pub(crate) fn not_live_parts<E: Emulator>(
    step: &Step,
    guest: Generation,
    row: u8,
    parts: &[Part<E>],
) -> Made<E>
    requires step { IsDrop step.now }
    requires parts { AreOf (refused_parts guest) (map (valued E.state) parts.now) }
    requires granted { IsGrantedAt (map (valued E.state) parts.now) step.now (Some row) guest }
    requires gone { find (is_of row) (space_in (map (valued E.state) parts.now)).windows ≡ None }
    ensures made { (harts : ℕ) (by : ActorId) → IsMadeAt E.state harts by (refused_parts guest)
        step.now result parts.now parts.now }
    ensures gives { OfRow row result.reply (given E.state result.handed.value) }
{
    let _ = guest;
    match step {
        Step::Drop(drop) => not_live_at(drop, row, parts),
        _ => unreachable!(),
    }
}
