//! Steps by guest that the directory refuses.
ghost use Rattle.std.specs.Prelude.{◌≡◌, ◌≤◌, IfErr, IfOk};
ghost use Rattle.std.specs.Option.{option_map};
ghost use Rattle.hv_board.specs.Board.{IsWhole};
ghost use Rattle.hv_board_steps.specs.Happened.{Gives, IsHappened, IsHeldUp};
ghost use Rattle.hv_text.specs.declared.limits.TheConstants.{GREATEST_STAMP};
ghost use Rattle.hv_guest_events.specs.Kinds.{IsRefusedOn, OfRefused};

use hv_board::{Board, Stop};
use hv_board_steps::{Happened, finish};
use hv_emu::Emulator;
use hv_event::{ActorId, CellId};
use hv_refusal::Refusal;
use hv_region::RegionPlan;
use hv_region_steps::refused_at;
use hv_step::Step;
use std::snapshot::Snapshot;

/// Shows why the directory refuses a step by guest of an actor with this stamp. A step on a region
/// hands its row over, if the guest's plan has it, and an addition its plan too.
pub fn refused_event<E: Emulator>(
    board: &mut Board<E>,
    by: ActorId,
    own: u64,
    step: &Step,
    why: Refusal,
    row: Option<u8>,
    plan: Option<(Snapshot<RegionPlan>, u8)>,
) -> Result<Happened<E>, Stop>
    requires whole { IsWhole E.state board.old }
    requires bounded { own ≤ GREATEST_STAMP }
    requires refused { IsRefusedOn board.old step.now row why }
    ensures whole { IsWhole E.state board.new }
    ensures layout { board.new.layout ≡ board.old.layout }
    ensures happened { IfOk result (λ happened. IsHappened E.state by own step.now board.old
        board.new happened) }
    ensures gives { IfOk result (Gives E.state (OfRefused step.now row
        (option_map (λ plan. (plan.0.value, plan.1)) plan))) }
    ensures held_up { IfErr result (λ why. IsHeldUp E.state by own step.now
        (OfRefused step.now row (option_map (λ plan. (plan.0.value, plan.1)) plan))
        board.old board.new why) }
{
    let xs = [CellId::Dir];
    let lifted = board.lift(own, &xs)?;
    let made = refused_at(step, why, row, plan, &lifted.parts);
    Ok(finish(board, lifted, by, own, &xs, step, made))
}
