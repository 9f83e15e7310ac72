//! Lists of guests' windows.
ghost use Rattle.std.specs.Prelude.{◌≡◌, ◌<◌, ◌≤◌, ◌∷◌, [], ℕ, None, IfErr, IfOk, map};
ghost use Rattle.hv_board.specs.Board.{IsWhole};
ghost use Rattle.hv_board_steps.specs.Granted.{IsGrantedAt, IsGrantedOn};
ghost use Rattle.hv_board_steps.specs.Happened.{Anything, IsHappened, IsHeldUp};
ghost use Rattle.hv_event.specs.declared.event.ActorId.{ActorId};
ghost use Rattle.hv_event.specs.declared.event.CellId.TheVariants as component;
ghost use Rattle.hv_parts.specs.Kinds.{AreOf};
ghost use Rattle.hv_parts.specs.Takes.{IsMadeAt};
ghost use Rattle.hv_parts.specs.Value.{valued};
ghost use Rattle.hv_text.specs.declared.limits.TheConstants.{GREATEST_STAMP};
ghost use Rattle.hv_guest_events.specs.Kinds.{IsRegionsStep};

use hv_board::{Board, Stop};
use hv_board_steps::{Happened, finish, slot_of};
use hv_emu::Emulator;
use hv_event::{ActorId, CellId};
use hv_handed::Made;
use hv_kinds::{Generation, Stage};
use hv_parts::Part;
use hv_region_steps::regions_at;
use hv_step::Step;
use std::alloc::{AllocError, Global};

/// Lists the windows of a guest that the directory gives, by a step of an actor with this stamp.
pub fn regions_event<E: Emulator>(
    alloc: Global,
    board: &mut Board<E>,
    by: ActorId,
    own: u64,
    step: &Step,
    guest: Generation,
) -> Result<Happened<E>, Stop>
    requires whole { IsWhole E.state board.old }
    requires bounded { own ≤ GREATEST_STAMP }
    requires step { IsRegionsStep step.now }
    requires granted { IsGrantedOn board.old step.now None guest }
    ensures whole { IsWhole E.state board.new }
    ensures layout { board.new.layout ≡ board.old.layout }
    ensures happened { IfOk result (λ happened. IsHappened E.state by own step.now board.old
        board.new happened) }
    ensures held_up { IfErr result (λ why. IsHeldUp E.state by own step.now Anything board.old
        board.new why) }
{
    let Step::Regions(regions) = step else {
        unreachable!();
    };
    let slot = slot_of(
        board.directory(),
        regions.name.as_slice(),
        Stage::Made,
        guest,
    );
    let xs = [CellId::Dir, CellId::Space(slot)];
    let lifted = board.lift(own, &xs)?;
    match listed_at(alloc, step, guest, &lifted.parts) {
        Ok(made) => Ok(finish(board, lifted, by, own, &xs, step, made)),
        Err(error) => {
            board.put_back(lifted, &xs);
            Err(Stop::Memory(error))
        }
    }
}

// Makes the step at the directory and at the guest's space.
fn listed_at<E: Emulator>(
    alloc: Global,
    step: &Step,
    guest: Generation,
    parts: &[Part<E>],
) -> Result<Made<E>, AllocError>
    requires step { IsRegionsStep step.now }
    requires parts { AreOf (component.Dir ∷ component.Space guest.slot ∷ [])
        (map (valued E.state) parts.now) }
    requires granted { IsGrantedAt (map (valued E.state) parts.now) step.now None guest }
    ensures { IfOk result (λ made. (harts : ℕ) (by : ActorId) → IsMadeAt E.state harts by
        (component.Dir ∷ component.Space guest.slot ∷ []) step.now made parts.now parts.now) }
{
    let _ = guest;
    match step {
        Step::Regions(regions) => regions_at(alloc, regions, parts),
        _ => unreachable!(),
    }
}
