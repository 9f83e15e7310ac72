//! VCPUs that are added to guests.
ghost use Rattle.std.specs.Prelude.{◌≡◌, ◌<◌, ◌≤◌, Some, IfErr, IfOk};
ghost use Rattle.hv_board.specs.Board.{IsWhole};
ghost use Rattle.hv_region.specs.Plans.{IsVcpuPlan};
ghost use Rattle.hv_step.specs.declared.step.Step.TheVariants as steps;
ghost use Rattle.hv_text.specs.declared.limits.TheConstants.{GREATEST_STAMP, GUEST_VCPUS, VCPUS};
ghost use Rattle.hv_board_steps.specs.Happened.{Gives, IsHappened, IsHeldUp};
ghost use Rattle.hv_board_steps.specs.Vcpus.{OfVcpu};

use crate::ending::finish;
use crate::happened::Happened;
use hv_board::{Board, Stop};
use hv_emu::Emulator;
use hv_event::{ActorId, CellId};
use hv_region::VcpuPlan;
use hv_step::{Step, Vadd};
use hv_terminal_steps::vadd_at;

/// Gives a VCPU to the guest of a birth, as the one of this index, with this plan, by a step of an
/// actor with this stamp.
pub fn vadd_event<E: Emulator>(
    board: &mut Board<E>,
    by: ActorId,
    own: u64,
    vadd: Vadd,
    index: u8,
    plan: VcpuPlan,
) -> Result<Happened<E>, Stop>
    requires whole { IsWhole E.state board.old }
    requires bounded { own ≤ GREATEST_STAMP }
    requires vcpu { vadd.vcpu < VCPUS }
    requires index { index < GUEST_VCPUS }
    requires plan { IsVcpuPlan plan }
    ensures whole { IsWhole E.state board.new }
    ensures layout { board.new.layout ≡ board.old.layout }
    ensures happened { IfOk result (λ happened. IsHappened E.state by own (steps.Vadd vadd)
        board.old board.new happened) }
    ensures gives { IfOk result (Gives E.state (OfVcpu (Some (index, plan)))) }
    ensures held_up { IfErr result (λ why. IsHeldUp E.state by own (steps.Vadd vadd)
        (OfVcpu (Some (index, plan))) board.old board.new why) }
{
    let step = Step::Vadd(vadd);
    let xs = [CellId::Vcpu(vadd.vcpu)];
    let mut lifted = board.lift(own, &xs)?;
    let made = vadd_at(vadd, index, plan, &mut lifted.parts);
    Ok(finish(board, lifted, by, own, &xs, &step, made))
}
