//! Steps at the VCPU alone that a hart runs, or ran.
ghost use Rattle.std.specs.Prelude.{◌≡◌, ◌∷◌, [], ℕ, map, true, false, IsSome};
ghost use Rattle.hv_event.specs.declared.event.ActorId.TheVariants.{Hart};
ghost use Rattle.hv_event.specs.declared.event.CellId.TheVariants as component;
ghost use Rattle.hv_hart_steps.specs.Allowed.{HasVcpu};
ghost use Rattle.hv_parts.specs.Kinds.{AreOf};
ghost use Rattle.hv_parts.specs.Takes.{IsMadeAt};
ghost use Rattle.hv_parts.specs.Value.{valued};
ghost use Rattle.hv_rules.specs.Vcpu.{runs_on};
ghost use Rattle.hv_step.specs.declared.step.Step.TheVariants as steps;
ghost use Rattle.hv_trap.specs.Trap.{chosen};

use hv_emu::Emulator;
use hv_handed::{Made, Told};
use hv_parts::{Part, vcpu, vcpu_mut};
use hv_step::{Leave, Take};
use hv_vcpu_steps::{leave, take};

/// Lets a VCPU go that doesn't run on the hart any more.
pub fn leave_at<E: Emulator>(hart: u8, step: Leave, parts: &[Part<E>]) -> Made<E>
    requires parts { AreOf (component.Vcpu step.vcpu ∷ []) (map (valued E.state) parts.now) }
    requires away { HasVcpu (λ vcpu. runs_on (Hart hart) vcpu.state ≡ false)
        (map (valued E.state) parts.now) }
    ensures { (harts : ℕ) → IsMadeAt E.state harts (Hart hart) (component.Vcpu step.vcpu ∷ [])
        (steps.Leave step) result parts.now parts.now }
{
    let Some((reply, handed)) = leave(hart, step, vcpu(&parts[0])) else {
        unreachable!()
    };
    Made {
        reply,
        handed,
        told: Told::nothing(),
    }
}

/// Takes the interrupt of the VCPU that the hart runs.
pub fn take_at<E: Emulator>(hart: u8, step: Take, parts: &mut [Part<E>]) -> Made<E>
    requires parts { AreOf (component.Vcpu step.vcpu ∷ []) (map (valued E.state) parts.old) }
    requires runs { HasVcpu (λ vcpu. runs_on (Hart hart) vcpu.state ≡ true)
        (map (valued E.state) parts.old) }
    requires interrupt { HasVcpu (λ vcpu. IsSome (chosen vcpu.context))
        (map (valued E.state) parts.old) }
    ensures { (harts : ℕ) → IsMadeAt E.state harts (Hart hart) (component.Vcpu step.vcpu ∷ [])
        (steps.Take step) result parts.old parts.new }
{
    let Some((reply, handed)) = take(hart, step, vcpu_mut(&mut parts[0])) else {
        unreachable!()
    };
    Made {
        reply,
        handed,
        told: Told::nothing(),
    }
}
