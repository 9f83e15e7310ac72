//! A hart's turn at its queue, and at the VCPU that it begins to run there or puts back.
ghost use Rattle.std.specs.Prelude.{◌≡◌, ◌<◌, ◌∷◌, [], ℕ, map, None, Some, true};
ghost use Rattle.hv_event.specs.declared.event.ActorId.TheVariants.{Hart};
ghost use Rattle.hv_event.specs.declared.event.CellId.TheVariants as component;
ghost use Rattle.hv_hart_steps.specs.Allowed.{HasQueue, HasVcpu};
ghost use Rattle.hv_parts.specs.Kinds.{AreOf};
ghost use Rattle.hv_parts.specs.Takes.{IsMadeAt};
ghost use Rattle.hv_parts.specs.Value.{valued};
ghost use Rattle.hv_queue.specs.Queue.{head_of};
ghost use Rattle.hv_rules.specs.Vcpu.{runs_on};
ghost use Rattle.hv_step.specs.declared.step.Step.TheVariants as steps;
ghost use Rattle.hv_text.specs.declared.limits.TheConstants.{VCPUS};

use hv_emu::Emulator;
use hv_handed::{Made, Told};
use hv_parts::{Part, queue, queue_mut, vcpu_mut};
use hv_step::{Dispatch, Idle, Preempt};
use hv_vcpu_steps::{dispatch, idle, preempt};

/// Finds no VCPU to run at the hart's queue, which is empty.
pub fn idle_at<E: Emulator>(hart: u8, step: Idle, parts: &[Part<E>]) -> Made<E>
    requires parts { AreOf (component.Queue hart ∷ []) (map (valued E.state) parts.now) }
    requires empty { HasQueue (λ queue. head_of queue ≡ None) (map (valued E.state) parts.now) }
    ensures { (harts : ℕ) → IsMadeAt E.state harts (Hart hart) (component.Queue hart ∷ [])
        (steps.Idle step) result parts.now parts.now }
{
    let _ = hart;
    let Some((reply, handed)) = idle(step, queue(&parts[0])) else {
        unreachable!()
    };
    Made {
        reply,
        handed,
        told: Told::nothing(),
    }
}

/// Begins to run the VCPU at the head of the hart's queue.
pub fn dispatch_at<E: Emulator>(hart: u8, step: Dispatch, parts: &mut [Part<E>]) -> Made<E>
    requires parts { AreOf (component.Queue hart ∷ component.Vcpu step.vcpu ∷ [])
        (map (valued E.state) parts.old) }
    requires head { HasQueue (λ queue. head_of queue ≡ Some step.vcpu)
        (map (valued E.state) parts.old) }
    ensures { (harts : ℕ) → IsMadeAt E.state harts (Hart hart)
        (component.Queue hart ∷ component.Vcpu step.vcpu ∷ []) (steps.Dispatch step)
        result parts.old parts.new }
{
    let (front, back) = parts.split_at_mut(1);
    let home = queue_mut(&mut front[0]);
    let Some((reply, handed)) = dispatch(hart, step, home, vcpu_mut(&mut back[0])) else {
        unreachable!()
    };
    Made {
        reply,
        handed,
        told: Told::nothing(),
    }
}

/// Puts the VCPU that the hart runs back into its queue.
pub fn preempt_at<E: Emulator>(hart: u8, step: Preempt, parts: &mut [Part<E>]) -> Made<E>
    requires vcpu { step.vcpu < VCPUS }
    requires parts { AreOf (component.Queue hart ∷ component.Vcpu step.vcpu ∷ [])
        (map (valued E.state) parts.old) }
    requires runs { HasVcpu (λ vcpu. runs_on (Hart hart) vcpu.state ≡ true)
        (map (valued E.state) parts.old) }
    ensures { (harts : ℕ) → IsMadeAt E.state harts (Hart hart)
        (component.Queue hart ∷ component.Vcpu step.vcpu ∷ []) (steps.Preempt step)
        result parts.old parts.new }
{
    let (front, back) = parts.split_at_mut(1);
    let home = queue_mut(&mut front[0]);
    let Some((reply, handed)) = preempt(hart, step, home, vcpu_mut(&mut back[0])) else {
        unreachable!()
    };
    Made {
        reply,
        handed,
        told: Told::nothing(),
    }
}
