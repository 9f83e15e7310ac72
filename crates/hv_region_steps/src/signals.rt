//! Interrupts on their way: lines that are carried to parents, and pins to VCPUs.
ghost use Rattle.std.specs.Prelude.{◌≡◌, ◌≢◌, ◌<◌, ◌∷◌, [], ℕ, map};
ghost use Rattle.hv_event.specs.declared.event.ActorId.{ActorId};
ghost use Rattle.hv_event.specs.declared.event.CellId.TheVariants as component;
ghost use Rattle.hv_parts.specs.Kinds.{AreOf};
ghost use Rattle.hv_parts.specs.Takes.{IsMadeAt};
ghost use Rattle.hv_parts.specs.Value.{valued};
ghost use Rattle.hv_rules.specs.Footprint.{home_queue, two_bodies};
ghost use Rattle.hv_step.specs.declared.step.Step.TheVariants as steps;
ghost use Rattle.hv_text.specs.declared.limits.TheConstants.{GUEST_REGIONS, VCPUS};

use hv_device_steps::{pins_shown, sample};
use hv_emu::Emulator;
use hv_handed::{Made, Told};
use hv_parts::{Part, body, body_mut, queue_mut, vcpu_mut};
use hv_step::{Pin, Sample};
use hv_vcpu_steps::pin;

/// Carries the line of a region to a source of its parent.
pub fn sample_at<E: Emulator>(step: Sample, parts: &mut [Part<E>]) -> Made<E>
    requires apart { step.row ≢ step.parent }
    requires parts { AreOf (two_bodies step.generation step.row step.parent)
        (map (valued E.state) parts.old) }
    ensures { (harts : ℕ) (by : ActorId) → IsMadeAt E.state harts by
        (two_bodies step.generation step.row step.parent) (steps.Sample step) result
        parts.old parts.new }
{
    let (front, back) = parts.split_at_mut(1);
    let (reply, handed) = sample(step, body_mut(&mut front[0]), body_mut(&mut back[0]));
    Made {
        reply,
        handed,
        told: Told::nothing(),
    }
}

/// Carries the pins that a region drives to a VCPU; one that wakes goes into its home queue.
pub fn pin_at<E: Emulator>(harts: u8, step: Pin, parts: &mut [Part<E>]) -> Made<E>
    requires row { step.row < GUEST_REGIONS }
    requires vcpu { step.vcpu < VCPUS }
    requires parts { AreOf (home_queue harts step.vcpu ∷ component.Vcpu step.vcpu
        ∷ component.Body step.generation.slot step.row ∷ []) (map (valued E.state) parts.old) }
    ensures { (by : ActorId) → IsMadeAt E.state harts by (home_queue harts step.vcpu
        ∷ component.Vcpu step.vcpu ∷ component.Body step.generation.slot step.row ∷ [])
        (steps.Pin step) result parts.old parts.new }
{
    let _ = harts;
    let pins = pins_shown(step, body(&parts[2]));
    let (front, back) = parts.split_at_mut(1);
    let (reply, handed) = pin(step, pins, queue_mut(&mut front[0]), vcpu_mut(&mut back[0]));
    Made {
        reply,
        handed,
        told: Told::nothing(),
    }
}
