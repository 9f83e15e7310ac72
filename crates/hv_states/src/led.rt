//! The state that a step leads to.
ghost use Rattle.std.specs.Prelude.{◌≡◌};
ghost use Rattle.hv_model.specs.States.{led_to, waiting};

use hv_answer::{Outcome, Reply};
use hv_event::ActorId;
use hv_kinds::State;
use hv_step::Step;

// An instruction that waits pauses its VCPU.
fn waiting(vcpu: u8, outcome: Outcome) -> Option<(u8, State)>
    ensures { result ≡ waiting vcpu outcome }
{
    match outcome {
        Outcome::Wait => Some((vcpu, State::Paused(true))),
        _ => None,
    }
}

/// The VCPU whose state a step changes, if it changes one, and the state that it leads to.
pub fn led_to(actor: ActorId, step: &Step, reply: &Reply) -> Option<(u8, State)>
    ensures { result ≡ led_to actor step.now reply.now }
{
    match (step, reply) {
        (Step::Vadd(added), Reply::Vadd(Ok(()))) => Some((added.vcpu, State::Reset)),
        (Step::Vdrop(dropped), Reply::Vdrop(Ok(()))) => Some((dropped.vcpu, State::Unknown)),
        (Step::Kick(kicked), Reply::Kick(Ok(()))) => Some((kicked.vcpu, State::Ready)),
        (Step::Resume(resumed), Reply::Resume(Ok(()))) => Some((resumed.vcpu, State::Ready)),
        (Step::Pause(paused), Reply::Pause(Ok(()))) => Some((paused.vcpu, State::Paused(false))),
        (Step::Halt(halted), Reply::Halt(Ok(()))) => Some((halted.vcpu, State::Halted)),
        (Step::Reset(reset), Reply::Reset(Ok(()))) => Some((reset.vcpu, State::Reset)),
        (Step::Dispatch(dispatched), Reply::Dispatch(Ok(_))) => match actor {
            ActorId::Hart(hart) => Some((dispatched.vcpu, State::Running(hart))),
            ActorId::Terminal(_) => None,
        },
        (Step::Preempt(preempted), _) => Some((preempted.vcpu, State::Ready)),
        (Step::Fetch(fetch), Reply::Fetch(Some(fetched))) => waiting(fetch.vcpu, fetched.outcome),
        (Step::Pin(pin), Reply::Pin(Some(pinned))) if pinned.woke => Some((pin.vcpu, State::Ready)),
        _ => None,
    }
}
