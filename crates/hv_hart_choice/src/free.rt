//! The step of a hart that runs no VCPU.
ghost use Rattle.std.specs.Prelude.{ℕ};
ghost use Rattle.hv_rules.specs.Carry.{Carry};
ghost use Rattle.hv_rules.specs.Hart.{Fits, free};
ghost use Rattle.hv_hart_choice.specs.Choice.{DispatchesKnown, QueueAllows, step_of};

use crate::step::HartStep;
use hv_queue::Queue;
use hv_step::{Dispatch, Idle};

/// Dispatches the head of its queue, and is idle where the queue is empty.
pub fn choose_free(queue: &Queue) -> HartStep
    ensures fits { (harts : ℕ) (c : Carry) → Fits harts free (step_of result) c }
    ensures queue { QueueAllows queue.now result }
    ensures known { DispatchesKnown result }
{
    // Each entry is of one of the board's VCPUs.
    let _many = queue.len();
    match queue.head() {
        Some(vcpu) => HartStep::Dispatch(Dispatch { vcpu }),
        None => HartStep::Idle(Idle),
    }
}
