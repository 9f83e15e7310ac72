//! VCPUs that are given to guests.
ghost use Rattle.std.specs.Prelude.{◌≡◌, ◌<◌, Some};
ghost use Rattle.hv_event.specs.declared.event.ActorId.{ActorId};
ghost use Rattle.hv_handed.specs.Given.{given};
ghost use Rattle.hv_handed.specs.Takes.{VcpuTakes};
ghost use Rattle.hv_region.specs.Plans.{IsVcpuPlan};
ghost use Rattle.hv_rules.specs.Handed.{handed_over};
ghost use Rattle.hv_step.specs.declared.step.Step.TheVariants as steps;
ghost use Rattle.hv_text.specs.declared.limits.TheConstants.{GUEST_VCPUS};

use crate::hands::hand_plan;
use crate::moves::make_move;
use hv_answer::Reply;
use hv_emu::Emulator;
use hv_handed::Handed;
use hv_region::VcpuPlan;
use hv_step::Vadd;
use hv_vcpu::{Move, Vcpu};

/// Gives a VCPU to the guest of a birth, as the one of this index, with this plan.
pub fn vadd<E: Emulator>(
    step: Vadd,
    index: u8,
    plan: VcpuPlan,
    vcpu: &mut Vcpu,
) -> (Reply, Handed<E>)
    requires index { index < GUEST_VCPUS }
    requires plan { IsVcpuPlan plan }
    ensures vcpu { (by : ActorId) → VcpuTakes by (steps.Vadd step) result.0
        (given E.state result.1.value) vcpu.old vcpu.new }
    ensures plan { (given E.state result.1.value).vcpu ≡ Some (index, plan) }
    ensures handed { handed_over (steps.Vadd step) (given E.state result.1.value)
        ≡ given E.state result.1.value }
{
    let to = Move::Add {
        birth: step.birth,
        index,
        plan,
    };
    (Reply::Vadd(make_move(vcpu, to)), hand_plan(index, plan))
}
