//! Steps that touch the directory alone.
ghost use Rattle.std.specs.Prelude.{◌≡◌, ◌≤◌, ◌∷◌, [], ℕ, IfErr, IfOk, OnErr, map};
ghost use Rattle.hv_board.specs.Board.{IsWhole};
ghost use Rattle.hv_board_steps.specs.Happened.{Gives, IsHappened, IsHeldUp};
ghost use Rattle.hv_event.specs.declared.event.ActorId.{ActorId};
ghost use Rattle.hv_event.specs.declared.event.CellId.TheVariants as component;
ghost use Rattle.hv_handed.specs.Given.{given};
ghost use Rattle.hv_parts.specs.Kinds.{AreOf};
ghost use Rattle.hv_parts.specs.Takes.{IsMadeAt};
ghost use Rattle.hv_parts.specs.Value.{valued};
ghost use Rattle.hv_text.specs.declared.limits.TheConstants.{GREATEST_STAMP};
ghost use Rattle.hv_guest_events.specs.Kinds.{IsDirectoryStep, StoppedBy};

use hv_board::{Board, Stop};
use hv_board_steps::{Happened, finish};
use hv_emu::Emulator;
use hv_event::{ActorId, CellId};
use hv_handed::Made;
use hv_parts::Part;
use hv_refusal::Refusal;
use hv_region_steps::{guests_at, name_at, stage_at};
use hv_step::Step;
use std::alloc::{AllocError, Global};

/// Lists the guests, claims a slot for one, or turns one to its next stage, by a step of an actor with
/// this stamp; a name may have been refused before.
pub fn directory_event<E: Emulator>(
    alloc: Global,
    board: &mut Board<E>,
    by: ActorId,
    own: u64,
    step: &Step,
    stopped: Option<Refusal>,
) -> Result<Happened<E>, Stop>
    requires whole { IsWhole E.state board.old }
    requires bounded { own ≤ GREATEST_STAMP }
    requires step { IsDirectoryStep step.now }
    ensures whole { IsWhole E.state board.new }
    ensures layout { board.new.layout ≡ board.old.layout }
    ensures happened { IfOk result (λ happened. IsHappened E.state by own step.now board.old
        board.new happened) }
    ensures gives { IfOk result (Gives E.state (StoppedBy stopped step.now)) }
    ensures held_up { IfErr result (λ why. IsHeldUp E.state by own step.now
        (StoppedBy stopped step.now) board.old board.new why) }
{
    let xs = [CellId::Dir];
    let mut lifted = board.lift(own, &xs)?;
    match directory_at(alloc, step, stopped, &mut lifted.parts) {
        Ok(made) => Ok(finish(board, lifted, by, own, &xs, step, made)),
        Err(error) => {
            board.put_back(lifted, &xs);
            Err(Stop::Memory(error))
        }
    }
}

// Makes the step at the directory.
fn directory_at<E: Emulator>(
    alloc: Global,
    step: &Step,
    stopped: Option<Refusal>,
    parts: &mut [Part<E>],
) -> Result<Made<E>, AllocError>
    requires step { IsDirectoryStep step.now }
    requires parts { AreOf (component.Dir ∷ []) (map (valued E.state) parts.old) }
    ensures made { IfOk result (λ made. (harts : ℕ) (by : ActorId) → IsMadeAt E.state harts by
        (component.Dir ∷ []) step.now made parts.old parts.new) }
    ensures gives { IfOk result (λ made. StoppedBy stopped step.now made.reply
        (given E.state made.handed.value)) }
    ensures kept { OnErr result (map (valued E.state) parts.new ≡ map (valued E.state) parts.old) }
{
    match step {
        Step::Guests(guests) => guests_at(alloc, *guests, parts),
        Step::Name(name) => name_at(alloc, name, stopped, parts),
        Step::Stage(stage) => Ok(stage_at(stage, parts)),
        _ => unreachable!(),
    }
}
