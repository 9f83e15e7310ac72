//! VCPUs that become ready, at their home queues and at themselves.
ghost use Rattle.std.specs.Prelude.{◌<◌, ◌∷◌, [], map};
ghost use Rattle.hv_event.specs.declared.event.ActorId.{ActorId};
ghost use Rattle.hv_event.specs.declared.event.CellId.TheVariants as component;
ghost use Rattle.hv_parts.specs.Kinds.{AreOf};
ghost use Rattle.hv_parts.specs.Takes.{IsMadeAt};
ghost use Rattle.hv_parts.specs.Value.{valued};
ghost use Rattle.hv_rules.specs.Footprint.{home_queue, past_dir_if};
ghost use Rattle.hv_step.specs.declared.step.Step.TheVariants as steps;
ghost use Rattle.hv_parts.specs.Admission.{IsAdmittedBy};
ghost use Rattle.hv_parts.specs.Takes.{IsTakenAt};
ghost use Rattle.hv_text.specs.declared.limits.TheConstants.{VCPUS};

use crate::places::directories;
use hv_emu::Emulator;
use hv_handed::{Made, Told};
use hv_parts::{Part, queue_mut, vcpu_mut};
use hv_step::{Kick, Resume};
use hv_vcpu_steps::{kick, resume};

/// Makes a VCPU ready that is in reset, and puts it into its home queue.
pub fn kick_at<E: Emulator>(harts: u8, step: &Kick, parts: &mut [Part<E>]) -> Made<E>
    requires vcpu { step.now.vcpu < VCPUS }
    requires parts { AreOf (past_dir_if step.now.guest
        (home_queue harts step.now.vcpu ∷ component.Vcpu step.now.vcpu ∷ []))
        (map (valued E.state) parts.old) }
    requires admitted { IsAdmittedBy (map (valued E.state) parts.old) step.now.guest }
    ensures { (by : ActorId) → IsMadeAt E.state harts by (past_dir_if step.now.guest
        (home_queue harts step.now.vcpu ∷ component.Vcpu step.now.vcpu ∷ []))
        (steps.Kick step.now) result parts.old parts.new }
{
    let before = directories(&step.guest);
    let (_, others) = parts.split_at_mut(before);
    kick_behind(harts, step, others)
}

// The same behind the directory.
fn kick_behind<E: Emulator>(harts: u8, step: &Kick, parts: &mut [Part<E>]) -> Made<E>
    requires vcpu { step.now.vcpu < VCPUS }
    requires parts { AreOf (home_queue harts step.now.vcpu ∷ component.Vcpu step.now.vcpu ∷ [])
        (map (valued E.state) parts.old) }
    ensures { IsTakenAt E.state (home_queue harts step.now.vcpu ∷ component.Vcpu step.now.vcpu ∷ [])
        (steps.Kick step.now) result parts.old parts.new }
{
    let _ = harts;
    let (front, back) = parts.split_at_mut(1);
    let (reply, handed) = kick(step, queue_mut(&mut front[0]), vcpu_mut(&mut back[0]));
    Made {
        reply,
        handed,
        told: Told::nothing(),
    }
}

/// Makes a paused VCPU ready, and puts it into its home queue.
pub fn resume_at<E: Emulator>(harts: u8, step: &Resume, parts: &mut [Part<E>]) -> Made<E>
    requires vcpu { step.now.vcpu < VCPUS }
    requires parts { AreOf (past_dir_if step.now.guest
        (home_queue harts step.now.vcpu ∷ component.Vcpu step.now.vcpu ∷ []))
        (map (valued E.state) parts.old) }
    requires admitted { IsAdmittedBy (map (valued E.state) parts.old) step.now.guest }
    ensures { (by : ActorId) → IsMadeAt E.state harts by (past_dir_if step.now.guest
        (home_queue harts step.now.vcpu ∷ component.Vcpu step.now.vcpu ∷ []))
        (steps.Resume step.now) result parts.old parts.new }
{
    let before = directories(&step.guest);
    let (_, others) = parts.split_at_mut(before);
    resume_behind(harts, step, others)
}

// The same behind the directory.
fn resume_behind<E: Emulator>(harts: u8, step: &Resume, parts: &mut [Part<E>]) -> Made<E>
    requires vcpu { step.now.vcpu < VCPUS }
    requires parts { AreOf (home_queue harts step.now.vcpu ∷ component.Vcpu step.now.vcpu ∷ [])
        (map (valued E.state) parts.old) }
    ensures { IsTakenAt E.state (home_queue harts step.now.vcpu ∷ component.Vcpu step.now.vcpu ∷ [])
        (steps.Resume step.now) result parts.old parts.new }
{
    let _ = harts;
    let (front, back) = parts.split_at_mut(1);
    let (reply, handed) = resume(step, queue_mut(&mut front[0]), vcpu_mut(&mut back[0]));
    Made {
        reply,
        handed,
        told: Told::nothing(),
    }
}
