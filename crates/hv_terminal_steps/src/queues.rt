//! All queues, which a VCPU leaves.
ghost use Rattle.std.specs.Prelude.{◌≡◌, ◌<◌, ℕ, All, length, slice_index_or};
ghost use Rattle.hv_event.specs.declared.event.CellId.TheVariants as component;
ghost use Rattle.hv_parts.specs.Kinds.{IsPartOf};
ghost use Rattle.hv_parts.specs.Value.{valued};
ghost use Rattle.hv_terminal_steps.specs.Taken.{Departs};

use hv_answer::Reply;
use hv_emu::Emulator;
use hv_parts::{Part, queue_mut};
use hv_vcpu_steps::leave_queue;

/// A VCPU leaves all queues, once the reply is known.
pub(crate) fn leave_queues<E: Emulator>(vcpu: u8, reply: &Reply, queues: &mut [Part<E>])
    requires { All (λ place. IsPartOf (component.Queue 0) (valued E.state place)) queues.old }
    ensures long { length queues.new ≡ length queues.old }
    ensures each { (k : ℕ) (d : _) → k < length queues.old → Departs vcpu reply.now
        (valued E.state (slice_index_or queues.old k d))
        (valued E.state (slice_index_or queues.new k d)) }
{
    for number in 0..queues.len() {
        leave_at(vcpu, reply, &mut queues[number]);
    }
}

// A VCPU leaves one queue.
fn leave_at<E: Emulator>(vcpu: u8, reply: &Reply, place: &mut Part<E>)
    requires { IsPartOf (component.Queue 0) (valued E.state place.old) }
    ensures { Departs vcpu reply.now (valued E.state place.old) (valued E.state place.new) }
{
    leave_queue(queue_mut(place), vcpu, reply);
}
