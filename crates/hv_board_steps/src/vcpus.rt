//! Steps of terminals on VCPUs.
ghost use Rattle.std.specs.Prelude.{◌≡◌, ◌<◌, ◌≤◌, ℕ, map, IfErr, IfOk, OnErr};
ghost use Rattle.hv_board.specs.Board.{IsWhole};
ghost use Rattle.hv_event.specs.declared.event.ActorId.{ActorId};
ghost use Rattle.hv_parts.specs.Admission.{IsAdmittedBy};
ghost use Rattle.hv_parts.specs.Kinds.{AreOf};
ghost use Rattle.hv_parts.specs.Takes.{IsMadeAt};
ghost use Rattle.hv_parts.specs.Value.{valued};
ghost use Rattle.hv_text.specs.declared.limits.TheConstants.{GREATEST_STAMP};
ghost use Rattle.hv_board_steps.specs.Happened.{Anything, IsHappened, IsHeldUp};
ghost use Rattle.hv_board_steps.specs.Vcpus.{IsAdmittedOn, IsShown, IsVcpusStep, guest_by, touched_by};

use crate::ending::finish;
use crate::happened::Happened;
use crate::touched::{home_parts, queue_parts, vcpu_alone};
use hv_board::{Board, Stop};
use hv_emu::Emulator;
use hv_event::{ActorId, CellId};
use hv_handed::Made;
use hv_parts::Part;
use hv_step::Step;
use hv_terminal_steps::{halt_at, kick_at, look_at, pause_at, reset_at, resume_at, vdrop_at};
use std::alloc::{AllocError, Global};

// What the step touches.
fn touched(alloc: Global, harts: u8, step: &Step) -> Result<Vec<CellId>, AllocError>
    requires harts { 0 < harts }
    requires step { IsVcpusStep step.now }
    requires shown { IsShown (guest_by step.now) }
    ensures { IfOk result (λ xs. xs.items ≡ touched_by harts step.now) }
{
    match step {
        Step::Kick(kick) => home_parts(alloc, harts, &kick.guest, kick.vcpu),
        Step::Resume(resume) => home_parts(alloc, harts, &resume.guest, resume.vcpu),
        Step::Pause(pause) => queue_parts(alloc, harts, &pause.guest, pause.vcpu),
        Step::Halt(halt) => queue_parts(alloc, harts, &halt.guest, halt.vcpu),
        Step::Reset(reset) => queue_parts(alloc, harts, &reset.guest, reset.vcpu),
        Step::Vdrop(drop) => queue_parts(alloc, harts, &None, drop.vcpu),
        Step::Look(look) => vcpu_alone(alloc, look.vcpu),
        _ => unreachable!(),
    }
}

// Makes the step at the parts that it touches.
fn vcpus_at<E: Emulator>(
    alloc: Global,
    harts: u8,
    step: &Step,
    parts: &mut [Part<E>],
) -> Result<Made<E>, AllocError>
    requires step { IsVcpusStep step.now }
    requires parts { AreOf (touched_by harts step.now) (map (valued E.state) parts.old) }
    requires admitted { IsAdmittedBy (map (valued E.state) parts.old) (guest_by step.now) }
    ensures made { IfOk result (λ made. (by : ActorId) → IsMadeAt E.state harts by
        (touched_by harts step.now) step.now made parts.old parts.new) }
    ensures kept { OnErr result (parts.new ≡ parts.old) }
{
    match step {
        Step::Kick(kick) => Ok(kick_at(harts, kick, parts)),
        Step::Resume(resume) => Ok(resume_at(harts, resume, parts)),
        Step::Pause(pause) => Ok(pause_at(harts, pause, parts)),
        Step::Halt(halt) => Ok(halt_at(harts, halt, parts)),
        Step::Reset(reset) => Ok(reset_at(harts, reset, parts)),
        Step::Vdrop(drop) => Ok(vdrop_at(harts, *drop, parts)),
        Step::Look(look) => look_at(alloc, *look, parts),
        _ => unreachable!(),
    }
}

/// Makes a step that changes or shows a VCPU, of an actor with this stamp; where it is by guest, the
/// directory admits it.
pub fn vcpus_event<E: Emulator>(
    alloc: Global,
    board: &mut Board<E>,
    by: ActorId,
    own: u64,
    step: &Step,
) -> Result<Happened<E>, Stop>
    requires whole { IsWhole E.state board.old }
    requires harts { 0 < board.old.layout.harts }
    requires bounded { own ≤ GREATEST_STAMP }
    requires step { IsVcpusStep step.now }
    requires admitted { IsAdmittedOn board.old (guest_by step.now) }
    ensures whole { IsWhole E.state board.new }
    ensures layout { board.new.layout ≡ board.old.layout }
    ensures happened { IfOk result (λ happened. IsHappened E.state by own step.now board.old
        board.new happened) }
    ensures held_up { IfErr result (λ why. IsHeldUp E.state by own step.now Anything board.old
        board.new why) }
{
    let harts = board.layout().harts;
    let xs = touched(alloc, harts, step)?;
    let mut lifted = board.lift(own, &xs)?;
    match vcpus_at(alloc, harts, step, &mut lifted.parts) {
        Ok(made) => Ok(finish(board, lifted, by, own, &xs, step, made)),
        Err(error) => {
            board.put_back(lifted, &xs);
            Err(Stop::Memory(error))
        }
    }
}
