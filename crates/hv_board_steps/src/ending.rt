//! The end of an event, at which the parts go back to their cells.
ghost use Rattle.std.specs.Prelude.{◌≡◌, ◌+◌};
ghost use Rattle.hv_board.specs.Board.{IsWhole, greatest_at};
ghost use Rattle.hv_board.specs.Lifted.{IsLifted};
ghost use Rattle.hv_parts.specs.Takes.{IsMadeAt};
ghost use Rattle.hv_board_steps.specs.Happened.{IsHappened};

use crate::happened::Happened;
use hv_board::{Board, Lifted};
use hv_emu::Emulator;
use hv_event::{ActorId, CellId};
use hv_handed::Made;
use hv_step::Step;

/// Puts the parts back with the event's stamp, once a step was made at them.
pub fn finish<E: Emulator>(
    board: &mut Board<E>,
    lifted: Lifted<E>,
    by: ActorId,
    own: u64,
    xs: &[CellId],
    step: &Step,
    made: Made<E>,
) -> Happened<E>
    requires lifted { IsLifted E.state xs.now lifted board.old }
    requires next { lifted.stamp ≡ greatest_at lifted.before.value own xs.now + 1 }
    requires made { IsMadeAt E.state board.old.layout.harts by xs.now step.now made
        lifted.were.value.items lifted.parts.items }
    ensures whole { IsWhole E.state board.new }
    ensures layout { board.new.layout ≡ board.old.layout }
    ensures happened { IsHappened E.state by own step.now lifted.before.value board.new result }
    ensures made { result.made ≡ made }
{
    let _ = own;
    let stamp = lifted.stamp;
    board.put(lifted, by, xs, step, &made);
    Happened { made, stamp }
}
