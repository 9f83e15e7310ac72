//! The plan of a VCPU.
ghost use Rattle.std.specs.Prelude.{◌≡◌, [], Some, MatchResult};
ghost use Rattle.hv_plan.specs.Properties.{first_of};
ghost use Rattle.hv_plan.specs.Vcpus.{vcpu_causes, vcpu_plan};

use crate::properties::{has, number, number_or};
use hv_dtree::Node;
use hv_kinds::Cause;
use hv_region::VcpuPlan;

/// The plan of a VCPU, or the first thing that is wrong with its node.
pub(crate) fn read_vcpu(node: &Node) -> Result<VcpuPlan, Cause>
    ensures { MatchResult result
        (λ plan. (vcpu_causes node.now ≡ []) × (plan ≡ vcpu_plan node.now))
        (λ cause. first_of (vcpu_causes node.now) ≡ Some cause) }
{
    if !has(node, b"start_pc") {
        return Err(Cause::Missing);
    }
    let Some(start) = number(node, b"start_pc") else {
        return Err(Cause::Form);
    };
    let Some(priority) = number_or(3, node, b"priority") else {
        return Err(Cause::Form);
    };
    let Some(slice) = number_or(8, node, b"time_slice") else {
        return Err(Cause::Form);
    };
    if start % 4 != 0 || priority > 7 || slice < 1 || slice > 1000 {
        return Err(Cause::Form);
    }
    Ok(VcpuPlan {
        start,
        priority: priority as u8,
        slice: slice as u32,
    })
}
