//! Steps at VCPUs alone.
ghost use Rattle.std.specs.Prelude.{◌≡◌, ◌<◌, ◌∷◌, [], ℕ, map, Some, IfOk};
ghost use Rattle.hv_event.specs.declared.event.ActorId.{ActorId};
ghost use Rattle.hv_event.specs.declared.event.CellId.TheVariants as component;
ghost use Rattle.hv_handed.specs.Given.{given};
ghost use Rattle.hv_parts.specs.Kinds.{AreOf};
ghost use Rattle.hv_parts.specs.Takes.{IsMadeAt};
ghost use Rattle.hv_parts.specs.Value.{valued};
ghost use Rattle.hv_region.specs.Plans.{IsVcpuPlan};
ghost use Rattle.hv_step.specs.declared.step.Step.TheVariants as steps;
ghost use Rattle.hv_text.specs.declared.limits.TheConstants.{GUEST_VCPUS};

use hv_emu::Emulator;
use hv_handed::{Made, Told};
use hv_parts::{Part, vcpu, vcpu_mut};
use hv_region::VcpuPlan;
use hv_step::{Look, Vadd};
use hv_vcpu_steps::{look, vadd};
use std::alloc::{AllocError, Global};

/// Gives a VCPU to the guest of a birth, as the one of this index, with this plan.
pub fn vadd_at<E: Emulator>(step: Vadd, index: u8, plan: VcpuPlan, parts: &mut [Part<E>]) -> Made<E>
    requires index { index < GUEST_VCPUS }
    requires plan { IsVcpuPlan plan }
    requires parts { AreOf (component.Vcpu step.vcpu ∷ []) (map (valued E.state) parts.old) }
    ensures made { (harts : ℕ) (by : ActorId) → IsMadeAt E.state harts by
        (component.Vcpu step.vcpu ∷ []) (steps.Vadd step) result parts.old parts.new }
    ensures plan { (given E.state result.handed.value).vcpu ≡ Some (index, plan) }
{
    let (reply, handed) = vadd(step, index, plan, vcpu_mut(&mut parts[0]));
    Made {
        reply,
        handed,
        told: Told::nothing(),
    }
}

/// Looks at a VCPU.
pub fn look_at<E: Emulator>(
    alloc: Global,
    step: Look,
    parts: &[Part<E>],
) -> Result<Made<E>, AllocError>
    requires { AreOf (component.Vcpu step.vcpu ∷ []) (map (valued E.state) parts.now) }
    ensures { IfOk result (λ made. (harts : ℕ) (by : ActorId) → IsMadeAt E.state harts by
        (component.Vcpu step.vcpu ∷ []) (steps.Look step) made parts.now parts.now) }
{
    let made = look(alloc, step, vcpu(&parts[0]))?;
    let (reply, handed) = made;
    Ok(Made {
        reply,
        handed,
        told: Told::nothing(),
    })
}
