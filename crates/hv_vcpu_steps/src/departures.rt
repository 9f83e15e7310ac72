//! VCPUs that leave all queues by a command.
ghost use Rattle.std.specs.Prelude.{◌≡◌, ℕ, false};
ghost use Rattle.hv_answer.specs.declared.reply.Reply.TheVariants as replies;
ghost use Rattle.hv_event.specs.declared.event.ActorId.{ActorId};
ghost use Rattle.hv_handed.specs.Given.{given};
ghost use Rattle.hv_handed.specs.Takes.{QueueTakes, VcpuTakes};
ghost use Rattle.hv_rules.specs.Carry.{Carry as Carried};
ghost use Rattle.hv_rules.specs.Handed.{handed_over};
ghost use Rattle.hv_step.specs.declared.step.Halt.{Halt};
ghost use Rattle.hv_step.specs.declared.step.Pause.{Pause};
ghost use Rattle.hv_step.specs.declared.step.Reset.{Reset};
ghost use Rattle.hv_step.specs.declared.step.Vdrop.{Vdrop};
ghost use Rattle.hv_step.specs.declared.step.Step.TheVariants as steps;
ghost use Rattle.hv_vcpu_steps.specs.Departures.{leaves};

use crate::moves::make_move;
use hv_answer::Reply;
use hv_emu::Emulator;
use hv_handed::{Handed, hand_nothing};
use hv_queue::Queue;
use hv_step::{Halt, Pause, Reset, Vdrop};
use hv_vcpu::{Move, Vcpu};

/// Pauses a VCPU, which leaves all queues (`leave_queue`).
pub fn pause<E: Emulator>(step: &Pause, vcpu: &mut Vcpu) -> (Reply, Handed<E>)
    ensures vcpu { (by : ActorId) → VcpuTakes by (steps.Pause step.now) result.0
        (given E.state result.1.value) vcpu.old vcpu.new }
    ensures handed { handed_over (steps.Pause step.now) (given E.state result.1.value)
        ≡ given E.state result.1.value }
{
    let _ = step;
    (Reply::Pause(make_move(vcpu, Move::Pause)), hand_nothing())
}

/// Halts a VCPU, which leaves all queues (`leave_queue`).
pub fn halt<E: Emulator>(step: &Halt, vcpu: &mut Vcpu) -> (Reply, Handed<E>)
    ensures vcpu { (by : ActorId) → VcpuTakes by (steps.Halt step.now) result.0
        (given E.state result.1.value) vcpu.old vcpu.new }
    ensures handed { handed_over (steps.Halt step.now) (given E.state result.1.value)
        ≡ given E.state result.1.value }
{
    let _ = step;
    (Reply::Halt(make_move(vcpu, Move::Halt)), hand_nothing())
}

/// Resets a VCPU, which leaves all queues (`leave_queue`).
pub fn reset<E: Emulator>(step: &Reset, vcpu: &mut Vcpu) -> (Reply, Handed<E>)
    ensures vcpu { (by : ActorId) → VcpuTakes by (steps.Reset step.now) result.0
        (given E.state result.1.value) vcpu.old vcpu.new }
    ensures handed { handed_over (steps.Reset step.now) (given E.state result.1.value)
        ≡ given E.state result.1.value }
{
    let _ = step;
    (Reply::Reset(make_move(vcpu, Move::Reset)), hand_nothing())
}

/// Takes a VCPU from its guest; it leaves all queues (`leave_queue`).
pub fn vdrop<E: Emulator>(step: Vdrop, vcpu: &mut Vcpu) -> (Reply, Handed<E>)
    ensures vcpu { (by : ActorId) → VcpuTakes by (steps.Vdrop step) result.0
        (given E.state result.1.value) vcpu.old vcpu.new }
    ensures handed { handed_over (steps.Vdrop step) (given E.state result.1.value)
        ≡ given E.state result.1.value }
{
    let _ = step;
    (Reply::Vdrop(make_move(vcpu, Move::Drop)), hand_nothing())
}

/// A queue at the pause, the halt, the reset or the drop of a VCPU, once the reply is known: the VCPU leaves
/// it where the step is made.
pub fn leave_queue(queue: &mut Queue, vcpu: u8, reply: &Reply)
    ensures pause { (hart : ℕ) (s : Pause) (a : _) (c : Carried) → s.vcpu ≡ vcpu
        → reply.now ≡ replies.Pause a
        → QueueTakes hart (steps.Pause s) reply.now c queue.old queue.new }
    ensures halt { (hart : ℕ) (s : Halt) (a : _) (c : Carried) → s.vcpu ≡ vcpu
        → reply.now ≡ replies.Halt a
        → QueueTakes hart (steps.Halt s) reply.now c queue.old queue.new }
    ensures reset { (hart : ℕ) (s : Reset) (a : _) (c : Carried) → s.vcpu ≡ vcpu
        → reply.now ≡ replies.Reset a
        → QueueTakes hart (steps.Reset s) reply.now c queue.old queue.new }
    ensures vdrop { (hart : ℕ) (s : Vdrop) (a : _) (c : Carried) → s.vcpu ≡ vcpu
        → reply.now ≡ replies.Vdrop a
        → QueueTakes hart (steps.Vdrop s) reply.now c queue.old queue.new }
    ensures kept { leaves reply.now ≡ false → queue.new ≡ queue.old }
{
    if leaves(reply) {
        queue.remove(vcpu);
    }
}

// Whether a VCPU was paused, halted, reset or dropped.
fn leaves(reply: &Reply) -> bool
    ensures { result ≡ leaves reply.now }
{
    match reply {
        Reply::Pause(answer) => answer.is_ok(),
        Reply::Halt(answer) => answer.is_ok(),
        Reply::Reset(answer) => answer.is_ok(),
        Reply::Vdrop(answer) => answer.is_ok(),
        _ => false,
    }
}
