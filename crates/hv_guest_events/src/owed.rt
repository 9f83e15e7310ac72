//! The interrupt steps that actors owe.
ghost use Rattle.std.specs.Prelude.{◌≡◌, ◌<◌, ◌≤◌, ℕ, IfErr, IfOk, map};
ghost use Rattle.hv_board.specs.Board.{IsWhole};
ghost use Rattle.hv_board_steps.specs.Happened.{Anything, IsHappened, IsHeldUp};
ghost use Rattle.hv_event.specs.declared.event.ActorId.{ActorId};
ghost use Rattle.hv_parts.specs.Kinds.{AreOf};
ghost use Rattle.hv_parts.specs.Takes.{IsMadeAt};
ghost use Rattle.hv_parts.specs.Value.{valued};
ghost use Rattle.hv_programs.specs.Owed.{IsOwed};
ghost use Rattle.hv_text.specs.declared.limits.TheConstants.{GREATEST_STAMP};
ghost use Rattle.hv_guest_events.specs.Owed.{owed_parts};

use hv_board::{Board, Stop};
use hv_board_steps::{Happened, finish};
use hv_emu::Emulator;
use hv_event::{ActorId, CellId};
use hv_handed::Made;
use hv_parts::Part;
use hv_region_steps::{pin_at, sample_at};
use hv_step::Step;
use std::alloc::{AllocError, Global};

/// Carries a line to a parent, or pins to a VCPU, by a step that an actor with this stamp owes.
pub fn owed_event<E: Emulator>(
    alloc: Global,
    board: &mut Board<E>,
    by: ActorId,
    own: u64,
    step: &Step,
) -> Result<Happened<E>, Stop>
    requires whole { IsWhole E.state board.old }
    requires harts { 0 < board.old.layout.harts }
    requires bounded { own ≤ GREATEST_STAMP }
    requires step { IsOwed step.now }
    ensures whole { IsWhole E.state board.new }
    ensures layout { board.new.layout ≡ board.old.layout }
    ensures happened { IfOk result (λ happened. IsHappened E.state by own step.now board.old
        board.new happened) }
    ensures held_up { IfErr result (λ why. IsHeldUp E.state by own step.now Anything board.old
        board.new why) }
{
    let harts = board.layout().harts;
    let xs = touched(alloc, harts, step)?;
    let mut lifted = board.lift(own, &xs)?;
    let made = owed_at(harts, step, &mut lifted.parts);
    Ok(finish(board, lifted, by, own, &xs, step, made))
}

/// What the step touches.
pub(crate) fn touched(alloc: Global, harts: u8, step: &Step) -> Result<Vec<CellId>, AllocError>
    requires harts { 0 < harts }
    requires step { IsOwed step.now }
    ensures { IfOk result (λ xs. xs.items ≡ owed_parts harts step.now) }
{
    let mut xs = Vec::new(alloc);
    match step {
        Step::Sample(sample) => {
            let slot = sample.generation.slot;
            xs.push(CellId::Body(slot, sample.row.min(sample.parent)))?;
            xs.push(CellId::Body(slot, sample.row.max(sample.parent)))?;
        }
        Step::Pin(pin) => {
            xs.push(CellId::Queue(pin.vcpu % harts))?;
            xs.push(CellId::Vcpu(pin.vcpu))?;
            xs.push(CellId::Body(pin.generation.slot, pin.row))?;
        }
        _ => unreachable!(),
    }
    Ok(xs)
}

// Makes the step at what it touches.
fn owed_at<E: Emulator>(harts: u8, step: &Step, parts: &mut [Part<E>]) -> Made<E>
    requires step { IsOwed step.now }
    requires parts { AreOf (owed_parts harts step.now) (map (valued E.state) parts.old) }
    ensures { (by : ActorId) → IsMadeAt E.state harts by (owed_parts harts step.now) step.now result
        parts.old parts.new }
{
    match step {
        Step::Sample(sample) => sample_at(*sample, parts),
        Step::Pin(pin) => pin_at(harts, *pin, parts),
        _ => unreachable!(),
    }
}
