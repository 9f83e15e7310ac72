//! Steps on the devices of regions.
ghost use Rattle.std.specs.Prelude.{◌≡◌, ◌<◌, ◌≤◌, ◌∷◌, [], ℕ, Some, IfErr, IfOk, OnErr, map};
ghost use Rattle.hv_board.specs.Board.{IsWhole};
ghost use Rattle.hv_board_steps.specs.Granted.{IsGrantedAt, IsGrantedOn};
ghost use Rattle.hv_board_steps.specs.Happened.{Gives, IsHappened, IsHeldUp};
ghost use Rattle.hv_event.specs.declared.event.ActorId.{ActorId};
ghost use Rattle.hv_event.specs.declared.event.CellId.TheVariants as component;
ghost use Rattle.hv_handed.specs.Given.{given};
ghost use Rattle.hv_parts.specs.Kinds.{AreOf};
ghost use Rattle.hv_parts.specs.Takes.{IsMadeAt};
ghost use Rattle.hv_parts.specs.Value.{valued};
ghost use Rattle.hv_text.specs.declared.limits.TheConstants.{GREATEST_STAMP, GUEST_REGIONS};
ghost use Rattle.hv_guest_events.specs.Kinds.{IsDeviceStep, OfRow, device_guest};

use hv_board::{Board, Stop};
use hv_board_steps::{Happened, finish, slot_of};
use hv_emu::Emulator;
use hv_event::{ActorId, CellId};
use hv_handed::Made;
use hv_kinds::{Generation, Stage};
use hv_parts::Part;
use hv_region_steps::{devreset_at, feed_at, output_at};
use hv_step::Step;
use std::alloc::{AllocError, Global};

/// Resets a device, sends bytes to it, or reads what it has sent, of a guest that the directory gives,
/// by a step of an actor with this stamp.
pub fn device_event<E: Emulator>(
    alloc: Global,
    board: &mut Board<E>,
    by: ActorId,
    own: u64,
    step: &Step,
    guest: Generation,
    row: u8,
) -> Result<Happened<E>, Stop>
    requires whole { IsWhole E.state board.old }
    requires bounded { own ≤ GREATEST_STAMP }
    requires step { IsDeviceStep step.now }
    requires row { row < GUEST_REGIONS }
    requires granted { IsGrantedOn board.old step.now (Some row) guest }
    ensures whole { IsWhole E.state board.new }
    ensures layout { board.new.layout ≡ board.old.layout }
    ensures happened { IfOk result (λ happened. IsHappened E.state by own step.now board.old
        board.new happened) }
    ensures gives { IfOk result (Gives E.state (OfRow row)) }
    ensures held_up { IfErr result (λ why. IsHeldUp E.state by own step.now (OfRow row) board.old
        board.new why) }
{
    let slot = slot_of(board.directory(), name_of(step), Stage::Made, guest);
    let xs = [CellId::Dir, CellId::Body(slot, row)];
    let mut lifted = board.lift(own, &xs)?;
    match device_at(alloc, step, guest, row, &mut lifted.parts) {
        Ok(made) => Ok(finish(board, lifted, by, own, &xs, step, made)),
        Err(error) => {
            board.put_back(lifted, &xs);
            Err(Stop::Memory(error))
        }
    }
}

// The guest's name.
fn name_of(step: &Step) -> &[u8]
    requires { IsDeviceStep step.now }
    ensures { result.now ≡ device_guest step.now }
{
    match step {
        Step::Devreset(reset) => reset.name.as_slice(),
        Step::Feed(feed) => feed.name.as_slice(),
        Step::Output(output) => output.name.as_slice(),
        _ => unreachable!(),
    }
}

// Makes the step at the directory and at the body of the region's row.
fn device_at<E: Emulator>(
    alloc: Global,
    step: &Step,
    guest: Generation,
    row: u8,
    parts: &mut [Part<E>],
) -> Result<Made<E>, AllocError>
    requires step { IsDeviceStep step.now }
    requires parts { AreOf (component.Dir ∷ component.Body guest.slot row ∷ [])
        (map (valued E.state) parts.old) }
    requires granted { IsGrantedAt (map (valued E.state) parts.old) step.now (Some row) guest }
    ensures made { IfOk result (λ made. (harts : ℕ) (by : ActorId) → IsMadeAt E.state harts by
        (component.Dir ∷ component.Body guest.slot row ∷ []) step.now made parts.old parts.new) }
    ensures gives { IfOk result (λ made. OfRow row made.reply (given E.state made.handed.value)) }
    ensures kept { OnErr result (map (valued E.state) parts.new ≡ map (valued E.state) parts.old) }
{
    let _ = guest;
    match step {
        Step::Devreset(reset) => Ok(devreset_at(reset, row, parts)),
        Step::Feed(feed) => Ok(feed_at(feed, row, parts)),
        Step::Output(output) => output_at(alloc, output, row, parts),
        _ => unreachable!(),
    }
}
