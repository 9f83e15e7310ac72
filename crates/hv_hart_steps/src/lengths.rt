//! The lengths of the queues of all harts, and the entry that moves from one to another.
ghost use Rattle.std.specs.Prelude.{◌≡◌, ◌<◌, ◌≤◌, ◌==◌, ℕ, All, length, map, slice_index_or, IfOk, IfSome};
ghost use Rattle.hv_event.specs.declared.event.CellId.TheVariants as component;
ghost use Rattle.hv_hart_steps.specs.Balanced.{queue_in};
ghost use Rattle.hv_parts.specs.Kinds.{IsPartOf};
ghost use Rattle.hv_parts.specs.Value.{valued};
ghost use Rattle.hv_queue.specs.Queue.{IsEntry};
ghost use Rattle.hv_rules.specs.Balance.{is_uneven, longest};
ghost use Rattle.hv_rules.specs.Queue.{SaysMoved};
ghost use Rattle.hv_text.specs.declared.limits.TheConstants.{HARTS};

use hv_emu::Emulator;
use hv_parts::{Part, queue};
use hv_queue::QueueEntry;
use hv_vcpu_steps::{measure, uneven};
use std::alloc::{AllocError, Global};

/// The lengths of some queues.
pub(crate) fn lengths_of<E: Emulator>(
    alloc: Global,
    queues: &[Part<E>],
) -> Result<Vec<u64>, AllocError>
    requires { All (λ place. IsPartOf (component.Queue 0) (valued E.state place)) queues.now }
    ensures { IfOk result (λ lengths. lengths.items
        ≡ map (λ place. length (queue_in (valued E.state place))) queues.now) }
{
    let mut lengths = Vec::with_capacity(alloc, queues.len())?;
    for number in 0..queues.len() {
        measure(queue(&queues[number]), &mut lengths);
    }
    Ok(lengths)
}

/// The entry that moves between queues of these lengths: the last one of the longest, if they are uneven.
pub(crate) fn entry_moved<E: Emulator>(lengths: &[u64], queues: &[Part<E>]) -> Option<QueueEntry>
    requires some { 0 < length lengths.now }
    requires few { length lengths.now ≤ HARTS }
    requires lengths { length lengths.now ≡ length queues.now }
    requires queues { All (λ place. IsPartOf (component.Queue 0) (valued E.state place)) queues.now }
    ensures moved { (k : ℕ) (d : _) → SaysMoved (k == longest lengths.now)
        (is_uneven lengths.now) (queue_in (valued E.state (slice_index_or queues.now k d)))
        result }
    ensures entry { IfSome result IsEntry }
{
    let Some((from, _)) = uneven(lengths) else {
        return None;
    };
    queue(&queues[from as usize]).last()
}
