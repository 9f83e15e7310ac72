//! Faults of accesses that no window holds, at the guest's address space and the VCPU.
ghost use Rattle.std.specs.Prelude.{◌≡◌, ◌∷◌, [], ℕ, map, None, true};
ghost use Rattle.hv_event.specs.declared.event.ActorId.TheVariants.{Hart};
ghost use Rattle.hv_event.specs.declared.event.CellId.TheVariants as component;
ghost use Rattle.hv_hart_steps.specs.Allowed.{HasSpace, HasVcpu};
ghost use Rattle.hv_parts.specs.Kinds.{AreOf};
ghost use Rattle.hv_parts.specs.Takes.{IsMadeAt};
ghost use Rattle.hv_parts.specs.Value.{valued};
ghost use Rattle.hv_rules.specs.Space.{reached};
ghost use Rattle.hv_rules.specs.Vcpu.{AgreesToFault};
ghost use Rattle.hv_step.specs.declared.step.Step.TheVariants as steps;
ghost use Rattle.hv_vcpu_steps.specs.Instructions.{is_run_of};

use hv_emu::Emulator;
use hv_handed::{Made, Told};
use hv_parts::{Part, vcpu_mut};
use hv_step::Fault;
use hv_vcpu_steps::fault;

/// Takes the fault of an access that the VCPU makes on the hart, and that no window of its guest holds.
pub fn fault_at<E: Emulator>(hart: u8, step: Fault, parts: &mut [Part<E>]) -> Made<E>
    requires parts { AreOf (component.Space step.generation.slot ∷ component.Vcpu step.vcpu ∷ [])
        (map (valued E.state) parts.old) }
    requires outside { HasSpace (λ space. reached space.windows step.address step.size ≡ None)
        (map (valued E.state) parts.old) }
    requires runs { HasVcpu (λ vcpu. is_run_of hart step.generation.birth vcpu ≡ true)
        (map (valued E.state) parts.old) }
    requires faults { HasVcpu (λ vcpu. AgreesToFault vcpu step.access step.address)
        (map (valued E.state) parts.old) }
    ensures { (harts : ℕ) → IsMadeAt E.state harts (Hart hart)
        (component.Space step.generation.slot ∷ component.Vcpu step.vcpu ∷ [])
        (steps.Fault step) result parts.old parts.new }
{
    let (_, back) = parts.split_at_mut(1);
    let Some((reply, handed)) = fault(hart, step, vcpu_mut(&mut back[0])) else {
        unreachable!()
    };
    Made {
        reply,
        handed,
        told: Told::nothing(),
    }
}
