//! Pins that a region drives at a VCPU.
ghost use Rattle.std.specs.Prelude.{◌≡◌, ◌<◌, ℕ, Some};
ghost use Rattle.hv_answer.specs.declared.reply.Pinned.{Pinned};
ghost use Rattle.hv_answer.specs.declared.reply.Reply.TheVariants as replies;
ghost use Rattle.hv_event.specs.declared.event.ActorId.{ActorId};
ghost use Rattle.hv_handed.specs.Given.{given};
ghost use Rattle.hv_handed.specs.Takes.{QueueTakes, VcpuTakes};
ghost use Rattle.hv_rules.specs.Handed.{handed_over};
ghost use Rattle.hv_rules.specs.Vcpu.{is_of};
ghost use Rattle.hv_step.specs.declared.step.Step.TheVariants as steps;
ghost use Rattle.hv_text.specs.declared.limits.TheConstants.{GUEST_REGIONS, VCPUS};

use crate::hands::hand_priority;
use crate::moves::priority_of;
use hv_answer::{Pinned, Reply};
use hv_emu::Emulator;
use hv_handed::{Handed, hand_nothing};
use hv_kinds::Pins;
use hv_queue::Queue;
use hv_step::Pin;
use hv_vcpu::Vcpu;

/// Sets the pins that a region drives; a VCPU that wakes goes into its home queue.
pub fn pin<E: Emulator>(
    step: Pin,
    pins: Pins,
    home: &mut Queue,
    vcpu: &mut Vcpu,
) -> (Reply, Handed<E>)
    requires row { step.row < GUEST_REGIONS }
    requires vcpu { step.vcpu < VCPUS }
    ensures queue { (hart : ℕ) → QueueTakes hart (steps.Pin step) result.0
        (given E.state result.1.value) home.old home.new }
    ensures vcpu { (by : ActorId) → VcpuTakes by (steps.Pin step) result.0
        (given E.state result.1.value) vcpu.old vcpu.new }
    ensures pins { (shown : Pinned) → result.0 ≡ replies.Pin (Some shown) → shown.pins ≡ pins }
    ensures handed { handed_over (steps.Pin step) (given E.state result.1.value)
        ≡ given E.state result.1.value }
{
    if vcpu.birth() != Some(step.generation.birth) {
        return (Reply::Pin(None), hand_nothing());
    }
    let handed = hand_priority(vcpu);
    let priority = priority_of(vcpu);
    let woke = vcpu.set_pins(step.row, pins);
    if woke {
        home.push(step.vcpu, priority);
    }
    (Reply::Pin(Some(Pinned { pins, woke })), handed)
}
