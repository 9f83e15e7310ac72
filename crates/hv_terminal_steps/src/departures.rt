//! VCPUs that leave all queues, at the queues of all harts and at themselves.
ghost use Rattle.std.specs.Prelude.{◌≡◌, ◌+◌, ◌∷◌, ◌++◌, [], All, drop, length, map, take};
ghost use Rattle.hv_event.specs.declared.event.ActorId.{ActorId};
ghost use Rattle.hv_event.specs.declared.event.CellId.TheVariants as component;
ghost use Rattle.hv_parts.specs.Kinds.{AreOf, IsPartOf};
ghost use Rattle.hv_parts.specs.Takes.{IsMadeAt};
ghost use Rattle.hv_parts.specs.Value.{valued};
ghost use Rattle.hv_rules.specs.Footprint.{all_queues, past_dir_if};
ghost use Rattle.hv_step.specs.declared.step.Step.TheVariants as steps;
ghost use Rattle.hv_parts.specs.Admission.{IsAdmittedBy};
ghost use Rattle.hv_parts.specs.Takes.{IsTakenAt};

use crate::places::directories;
use crate::queues::leave_queues;
use hv_emu::Emulator;
use hv_handed::{Made, Told};
use hv_parts::{Part, vcpu_mut};
use hv_step::{Halt, Pause, Reset, Vdrop};
use hv_vcpu_steps::{halt, pause, reset, vdrop};

/// Pauses a VCPU.
pub fn pause_at<E: Emulator>(harts: u8, step: &Pause, parts: &mut [Part<E>]) -> Made<E>
    requires parts { AreOf (past_dir_if step.now.guest
        (all_queues harts ++ component.Vcpu step.now.vcpu ∷ [])) (map (valued E.state) parts.old) }
    requires admitted { IsAdmittedBy (map (valued E.state) parts.old) step.now.guest }
    ensures { (by : ActorId) → IsMadeAt E.state harts by (past_dir_if step.now.guest
        (all_queues harts ++ component.Vcpu step.now.vcpu ∷ [])) (steps.Pause step.now)
        result parts.old parts.new }
{
    let before = directories(&step.guest);
    let (_, others) = parts.split_at_mut(before);
    pause_behind(harts, step, others)
}

// The same behind the directory.
fn pause_behind<E: Emulator>(harts: u8, step: &Pause, parts: &mut [Part<E>]) -> Made<E>
    requires long { length parts.old ≡ harts + 1 }
    requires queues { All (λ place. IsPartOf (component.Queue 0) (valued E.state place))
        (take harts parts.old) }
    requires vcpu { AreOf (component.Vcpu step.now.vcpu ∷ [])
        (map (valued E.state) (drop harts parts.old)) }
    ensures { IsTakenAt E.state (all_queues harts ++ component.Vcpu step.now.vcpu ∷ [])
        (steps.Pause step.now) result parts.old parts.new }
{
    let (queues, places) = parts.split_at_mut(harts as usize);
    let (reply, handed) = pause(step, vcpu_mut(&mut places[0]));
    leave_queues(step.vcpu, &reply, queues);
    Made {
        reply,
        handed,
        told: Told::nothing(),
    }
}

/// Halts a VCPU.
pub fn halt_at<E: Emulator>(harts: u8, step: &Halt, parts: &mut [Part<E>]) -> Made<E>
    requires parts { AreOf (past_dir_if step.now.guest
        (all_queues harts ++ component.Vcpu step.now.vcpu ∷ [])) (map (valued E.state) parts.old) }
    requires admitted { IsAdmittedBy (map (valued E.state) parts.old) step.now.guest }
    ensures { (by : ActorId) → IsMadeAt E.state harts by (past_dir_if step.now.guest
        (all_queues harts ++ component.Vcpu step.now.vcpu ∷ [])) (steps.Halt step.now)
        result parts.old parts.new }
{
    let before = directories(&step.guest);
    let (_, others) = parts.split_at_mut(before);
    halt_behind(harts, step, others)
}

// The same behind the directory.
fn halt_behind<E: Emulator>(harts: u8, step: &Halt, parts: &mut [Part<E>]) -> Made<E>
    requires long { length parts.old ≡ harts + 1 }
    requires queues { All (λ place. IsPartOf (component.Queue 0) (valued E.state place))
        (take harts parts.old) }
    requires vcpu { AreOf (component.Vcpu step.now.vcpu ∷ [])
        (map (valued E.state) (drop harts parts.old)) }
    ensures { IsTakenAt E.state (all_queues harts ++ component.Vcpu step.now.vcpu ∷ [])
        (steps.Halt step.now) result parts.old parts.new }
{
    let (queues, places) = parts.split_at_mut(harts as usize);
    let (reply, handed) = halt(step, vcpu_mut(&mut places[0]));
    leave_queues(step.vcpu, &reply, queues);
    Made {
        reply,
        handed,
        told: Told::nothing(),
    }
}

/// Resets a VCPU.
pub fn reset_at<E: Emulator>(harts: u8, step: &Reset, parts: &mut [Part<E>]) -> Made<E>
    requires parts { AreOf (past_dir_if step.now.guest
        (all_queues harts ++ component.Vcpu step.now.vcpu ∷ [])) (map (valued E.state) parts.old) }
    requires admitted { IsAdmittedBy (map (valued E.state) parts.old) step.now.guest }
    ensures { (by : ActorId) → IsMadeAt E.state harts by (past_dir_if step.now.guest
        (all_queues harts ++ component.Vcpu step.now.vcpu ∷ [])) (steps.Reset step.now)
        result parts.old parts.new }
{
    let before = directories(&step.guest);
    let (_, others) = parts.split_at_mut(before);
    reset_behind(harts, step, others)
}

// The same behind the directory.
fn reset_behind<E: Emulator>(harts: u8, step: &Reset, parts: &mut [Part<E>]) -> Made<E>
    requires long { length parts.old ≡ harts + 1 }
    requires queues { All (λ place. IsPartOf (component.Queue 0) (valued E.state place))
        (take harts parts.old) }
    requires vcpu { AreOf (component.Vcpu step.now.vcpu ∷ [])
        (map (valued E.state) (drop harts parts.old)) }
    ensures { IsTakenAt E.state (all_queues harts ++ component.Vcpu step.now.vcpu ∷ [])
        (steps.Reset step.now) result parts.old parts.new }
{
    let (queues, places) = parts.split_at_mut(harts as usize);
    let (reply, handed) = reset(step, vcpu_mut(&mut places[0]));
    leave_queues(step.vcpu, &reply, queues);
    Made {
        reply,
        handed,
        told: Told::nothing(),
    }
}

/// Takes a VCPU from its guest.
pub fn vdrop_at<E: Emulator>(harts: u8, step: Vdrop, parts: &mut [Part<E>]) -> Made<E>
    requires { AreOf (all_queues harts ++ component.Vcpu step.vcpu ∷ [])
        (map (valued E.state) parts.old) }
    ensures { (by : ActorId) → IsMadeAt E.state harts by
        (all_queues harts ++ component.Vcpu step.vcpu ∷ []) (steps.Vdrop step)
        result parts.old parts.new }
{
    vdrop_behind(harts, step, parts)
}

// The same where all queues stand before the VCPU.
fn vdrop_behind<E: Emulator>(harts: u8, step: Vdrop, parts: &mut [Part<E>]) -> Made<E>
    requires long { length parts.old ≡ harts + 1 }
    requires queues { All (λ place. IsPartOf (component.Queue 0) (valued E.state place))
        (take harts parts.old) }
    requires vcpu { AreOf (component.Vcpu step.vcpu ∷ [])
        (map (valued E.state) (drop harts parts.old)) }
    ensures { IsTakenAt E.state (all_queues harts ++ component.Vcpu step.vcpu ∷ [])
        (steps.Vdrop step) result parts.old parts.new }
{
    let (queues, places) = parts.split_at_mut(harts as usize);
    let (reply, handed) = vdrop(step, vcpu_mut(&mut places[0]));
    leave_queues(step.vcpu, &reply, queues);
    Made {
        reply,
        handed,
        told: Told::nothing(),
    }
}
