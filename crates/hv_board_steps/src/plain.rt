//! Steps that touch nothing but their actor.
ghost use Rattle.std.specs.Prelude.{◌≡◌, ◌≤◌, IfErr, IfOk};
ghost use Rattle.hv_board.specs.Board.{IsWhole};
ghost use Rattle.hv_text.specs.declared.limits.TheConstants.{GREATEST_STAMP};
ghost use Rattle.hv_board_steps.specs.Happened.{Gives, IsHappened, IsHeldUp};
ghost use Rattle.hv_board_steps.specs.Plain.{IsPlain, OfReply};

use crate::ending::finish;
use crate::happened::Happened;
use hv_answer::Reply;
use hv_board::{Board, Stop};
use hv_emu::Emulator;
use hv_event::{ActorId, CellId};
use hv_handed::{Made, Told, hand_nothing};
use hv_step::Step;

/// Makes a step that touches nothing but its actor, which has this stamp and gives the reply itself.
pub fn plain_event<E: Emulator>(
    board: &mut Board<E>,
    by: ActorId,
    own: u64,
    step: &Step,
    reply: Reply,
) -> Result<Happened<E>, Stop>
    requires whole { IsWhole E.state board.old }
    requires bounded { own ≤ GREATEST_STAMP }
    requires step { IsPlain step.now }
    ensures whole { IsWhole E.state board.new }
    ensures layout { board.new.layout ≡ board.old.layout }
    ensures happened { IfOk result (λ happened. IsHappened E.state by own step.now board.old
        board.new happened) }
    ensures gives { IfOk result (Gives E.state (OfReply reply)) }
    ensures held_up { IfErr result (λ why. IsHeldUp E.state by own step.now (OfReply reply)
        board.old board.new why) }
{
    let xs: [CellId; 0] = [];
    let lifted = board.lift(own, &xs)?;
    let made = Made {
        reply,
        handed: hand_nothing(),
        told: Told::nothing(),
    };
    Ok(finish(board, lifted, by, own, &xs, step, made))
}
