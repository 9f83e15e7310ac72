//! Interrupts on their way: samples of lines, and pins of VCPUs.
ghost use Rattle.std.specs.Prelude.{◌≡◌, ◌≢◌, ℕ, ◌&&◌, ◌==◌, min, max, if◌then◌else◌};
ghost use Rattle.hv_answer.specs.declared.reply.Reply.{Reply};
ghost use Rattle.hv_body.specs.Body.{no_pins, seen};
ghost use Rattle.hv_handed.specs.Given.{given};
ghost use Rattle.hv_handed.specs.Takes.{BodyTakes};
ghost use Rattle.hv_rules.specs.Body.{ShowsPins, index_of, is_born, line_in, pins_in};
ghost use Rattle.hv_rules.specs.Carry.{Carry, nothing};
ghost use Rattle.hv_step.specs.declared.step.Step.TheVariants as steps;

use hv_answer::{Reply, Sampled};
use hv_body::BodyOf;
use hv_emu::Emulator;
use hv_handed::{Handed, hand_nothing};
use hv_kinds::Pins;
use hv_signals::{Signals, changes, is_born};
use hv_step::{Pin, Sample};
use hv_text::GUEST_VCPUS;

/// Carries the line of a region to a source of its parent. The bodies of both stand in the order of
/// their rows.
pub fn sample<E: Emulator>(
    step: Sample,
    first: &mut BodyOf<E>,
    second: &mut BodyOf<E>,
) -> (Reply, Handed<E>)
    requires { step.row ≢ step.parent }
    ensures first { BodyTakes (min step.row step.parent) (steps.Sample step) result.0
        (given E.state result.1.value) (seen E.state first.old) (seen E.state first.new) }
    ensures second { BodyTakes (max step.row step.parent) (steps.Sample step) result.0
        (given E.state result.1.value) (seen E.state second.old) (seen E.state second.new) }
    ensures alone { given E.state result.1.value ≡ nothing }
{
    if step.row < step.parent {
        carry_line(step, first, second)
    } else {
        carry_line(step, second, first)
    }
}

/// A parent takes the line of a region, unless it is gone.
fn carry_line<E: Emulator>(
    step: Sample,
    child: &BodyOf<E>,
    parent: &mut BodyOf<E>,
) -> (Reply, Handed<E>)
    requires { step.row ≢ step.parent }
    ensures child { BodyTakes step.row (steps.Sample step) result.0
        (given E.state result.1.value) (seen E.state child.now) (seen E.state child.now) }
    ensures parent { BodyTakes step.parent (steps.Sample step) result.0
        (given E.state result.1.value) (seen E.state parent.old) (seen E.state parent.new) }
    ensures alone { given E.state result.1.value ≡ nothing }
{
    if !is_born(parent, step.generation.birth) {
        return (Reply::Sample(None), hand_nothing());
    }
    let level = is_born(child, step.generation.birth) && child.line();
    let before = Signals::of(parent);
    parent.source(step.source, level);
    let sampled = Sampled {
        level,
        changes: changes(before, Signals::of(parent)),
    };
    (Reply::Sample(Some(sampled)), hand_nothing())
}

/// The pins that a region shows to a VCPU of its guest: none once the region is gone.
pub fn pins_shown<E: Emulator>(step: Pin, body: &BodyOf<E>) -> Pins
    ensures shown { result ≡ (if is_born step.generation.birth (seen E.state body.now)
        then pins_in (seen E.state body.now) (index_of step.vcpu) else no_pins) }
    // A reply that shows these pins, or that the VCPU's guest is gone, is the body's.
    ensures body { (row : ℕ) (r : Reply) (c : Carry) → ShowsPins result r
        → BodyTakes row (steps.Pin step) r c (seen E.state body.now) (seen E.state body.now) }
{
    if is_born(body, step.generation.birth) {
        let index = step.vcpu.saturating_sub(1) as usize % GUEST_VCPUS;
        body.pins(index as u8)
    } else {
        Pins {
            ext: false,
            soft: false,
            timer: false,
        }
    }
}
