//! Steps whose reply the files alone decide.
ghost use Rattle.std.specs.Prelude.{◌≡◌, ◌≤◌, IfErr, IfOk};
ghost use Rattle.hv_board.specs.Board.{IsWhole};
ghost use Rattle.hv_fpart.specs.Part.{IsFilesStep};
ghost use Rattle.hv_text.specs.declared.limits.TheConstants.{GREATEST_STAMP};
ghost use Rattle.hv_board_steps.specs.Happened.{Anything, IsHappened, IsHeldUp};

use crate::ending::finish;
use crate::happened::Happened;
use hv_board::{Board, Stop};
use hv_emu::Emulator;
use hv_event::{ActorId, CellId};
use hv_step::Step;
use hv_terminal_steps::files_at;
use std::alloc::Global;

/// Makes a step whose reply the files alone decide, of an actor with this stamp.
pub fn files_event<E: Emulator>(
    alloc: Global,
    board: &mut Board<E>,
    by: ActorId,
    own: u64,
    step: &Step,
) -> Result<Happened<E>, Stop>
    requires whole { IsWhole E.state board.old }
    requires bounded { own ≤ GREATEST_STAMP }
    requires step { IsFilesStep step.now }
    ensures whole { IsWhole E.state board.new }
    ensures layout { board.new.layout ≡ board.old.layout }
    ensures happened { IfOk result (λ happened. IsHappened E.state by own step.now board.old
        board.new happened) }
    ensures held_up { IfErr result (λ why. IsHeldUp E.state by own step.now Anything board.old
        board.new why) }
{
    let xs = [CellId::Files];
    let mut lifted = board.lift(own, &xs)?;
    match files_at(alloc, step, &mut lifted.parts) {
        Ok(made) => Ok(finish(board, lifted, by, own, &xs, step, made)),
        Err(error) => {
            board.put_back(lifted, &xs);
            Err(Stop::Memory(error))
        }
    }
}
