//! A hart's turn at its queue and at the VCPU that it runs.
ghost use Rattle.std.specs.Prelude.{◌≡◌, ◌≢◌, ◌<◌, ℕ, None, Some, true, false, IfSome};
ghost use Rattle.hv_event.specs.declared.event.ActorId.TheVariants.{Hart};
ghost use Rattle.hv_handed.specs.Given.{given};
ghost use Rattle.hv_handed.specs.Takes.{QueueTakes, VcpuTakes};
ghost use Rattle.hv_queue.specs.Queue.{head_of};
ghost use Rattle.hv_rules.specs.Handed.{handed_over};
ghost use Rattle.hv_rules.specs.Vcpu.{runs_on};
ghost use Rattle.hv_step.specs.declared.step.Step.TheVariants as steps;
ghost use Rattle.hv_text.specs.declared.limits.TheConstants.{VCPUS};
ghost use Rattle.hv_trap.specs.Trap.{chosen};

use crate::hands::hand_priority;
use crate::moves::{make_move, priority_of, runs_on, slice_of};
use hv_answer::Reply;
use hv_emu::Emulator;
use hv_handed::{Handed, hand_nothing};
use hv_queue::Queue;
use hv_step::{Dispatch, Idle, Leave, Preempt, Take};
use hv_trap::choose;
use hv_vcpu::{Move, Vcpu};

/// Finds no VCPU to run; None where one stands in the queue, which is dispatched.
pub fn idle<E: Emulator>(step: Idle, queue: &Queue) -> Option<(Reply, Handed<E>)>
    ensures none { result ≡ None → head_of queue.now ≢ None }
    ensures queue { IfSome result (λ made. (hart : ℕ) → QueueTakes hart (steps.Idle step) made.0
        (given E.state made.1.value) queue.now queue.now) }
    ensures handed { IfSome result (λ made. handed_over (steps.Idle step)
        (given E.state made.1.value) ≡ given E.state made.1.value) }
{
    let _ = step;
    match queue.head() {
        None => Some((Reply::Idle, hand_nothing())),
        Some(_) => None,
    }
}

/// Begins to run a VCPU on its hart; None where the VCPU isn't the head of the queue.
pub fn dispatch<E: Emulator>(
    hart: u8,
    step: Dispatch,
    queue: &mut Queue,
    vcpu: &mut Vcpu,
) -> Option<(Reply, Handed<E>)>
    ensures none { result ≡ None → head_of queue.old ≢ Some step.vcpu }
    ensures queue_kept { result ≡ None → queue.new ≡ queue.old }
    ensures vcpu_kept { result ≡ None → vcpu.new ≡ vcpu.old }
    ensures queue { IfSome result (λ made. (number : ℕ) → QueueTakes number (steps.Dispatch step)
        made.0 (given E.state made.1.value) queue.old queue.new) }
    ensures vcpu { IfSome result (λ made. VcpuTakes (Hart hart) (steps.Dispatch step) made.0
        (given E.state made.1.value) vcpu.old vcpu.new) }
    ensures handed { IfSome result (λ made. handed_over (steps.Dispatch step)
        (given E.state made.1.value) ≡ given E.state made.1.value) }
{
    if queue.head() != Some(step.vcpu) {
        return None;
    }
    let slice = slice_of(vcpu);
    match make_move(vcpu, Move::Dispatch(hart)) {
        Ok(()) => {
            queue.remove(step.vcpu);
            Some((Reply::Dispatch(Ok(slice)), hand_nothing()))
        }
        Err(why) => Some((Reply::Dispatch(Err(why)), hand_nothing())),
    }
}

/// Puts a VCPU back into the queue of the hart that runs it; None where it doesn't run there, and is left.
pub fn preempt<E: Emulator>(
    hart: u8,
    step: Preempt,
    queue: &mut Queue,
    vcpu: &mut Vcpu,
) -> Option<(Reply, Handed<E>)>
    requires { step.vcpu < VCPUS }
    ensures none { result ≡ None → runs_on (Hart hart) vcpu.old.state ≡ false }
    ensures queue_kept { result ≡ None → queue.new ≡ queue.old }
    ensures vcpu_kept { result ≡ None → vcpu.new ≡ vcpu.old }
    ensures queue { IfSome result (λ made. (number : ℕ) → QueueTakes number (steps.Preempt step)
        made.0 (given E.state made.1.value) queue.old queue.new) }
    ensures vcpu { IfSome result (λ made. VcpuTakes (Hart hart) (steps.Preempt step) made.0
        (given E.state made.1.value) vcpu.old vcpu.new) }
    ensures handed { IfSome result (λ made. handed_over (steps.Preempt step)
        (given E.state made.1.value) ≡ given E.state made.1.value) }
{
    if !runs_on(hart, vcpu) {
        return None;
    }
    let handed = hand_priority(vcpu);
    queue.push(step.vcpu, priority_of(vcpu));
    let _ = vcpu.step(Move::Preempt);
    Some((Reply::Preempt, handed))
}

/// Lets a VCPU go that doesn't run on the hart; None where it does.
pub fn leave<E: Emulator>(hart: u8, step: Leave, vcpu: &Vcpu) -> Option<(Reply, Handed<E>)>
    ensures none { result ≡ None → runs_on (Hart hart) vcpu.now.state ≡ true }
    ensures vcpu { IfSome result (λ made. VcpuTakes (Hart hart) (steps.Leave step) made.0
        (given E.state made.1.value) vcpu.now vcpu.now) }
    ensures handed { IfSome result (λ made. handed_over (steps.Leave step)
        (given E.state made.1.value) ≡ given E.state made.1.value) }
{
    let _ = step;
    if runs_on(hart, vcpu) {
        return None;
    }
    Some((Reply::Leave(vcpu.state()), hand_nothing()))
}

/// Takes the interrupt of a VCPU; None where it doesn't run on the hart, or no interrupt can be taken.
pub fn take<E: Emulator>(hart: u8, step: Take, vcpu: &mut Vcpu) -> Option<(Reply, Handed<E>)>
    ensures none { result ≡ None → runs_on (Hart hart) vcpu.old.state ≡ true
        → chosen vcpu.old.context ≡ None }
    ensures kept { result ≡ None → vcpu.new ≡ vcpu.old }
    ensures vcpu { IfSome result (λ made. VcpuTakes (Hart hart) (steps.Take step) made.0
        (given E.state made.1.value) vcpu.old vcpu.new) }
    ensures handed { IfSome result (λ made. handed_over (steps.Take step)
        (given E.state made.1.value) ≡ given E.state made.1.value) }
{
    let _ = step;
    if !runs_on(hart, vcpu) {
        return None;
    }
    let cause = choose(vcpu.ctx())?;
    vcpu.trapped(cause, 0);
    Some((Reply::Take(cause), hand_nothing()))
}
