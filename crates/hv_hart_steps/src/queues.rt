//! All queues, between which an entry moves, or none.
ghost use Rattle.std.specs.Prelude.{◌≡◌, ◌<◌, ◌≤◌, ◌==◌, ℕ, All, get_or, length, map, slice_index_or, IfSome};
ghost use Rattle.hv_event.specs.declared.event.CellId.TheVariants as component;
ghost use Rattle.hv_hart_steps.specs.Balanced.{Balances, queue_in};
ghost use Rattle.hv_parts.specs.Kinds.{IsPartOf};
ghost use Rattle.hv_parts.specs.Value.{valued};
ghost use Rattle.hv_queue.specs.Queue.{IsEntry};
ghost use Rattle.hv_rules.specs.Balance.{is_uneven, longest};
ghost use Rattle.hv_rules.specs.Queue.{SaysMoved};
ghost use Rattle.hv_text.specs.declared.limits.TheConstants.{HARTS};

use hv_emu::Emulator;
use hv_parts::{Part, queue_mut};
use hv_queue::QueueEntry;
use hv_vcpu_steps::balance_queue;

/// Each of the queues of these lengths gives the entry that moves, takes it, or is left.
pub(crate) fn balance_queues<E: Emulator>(
    lengths: &[u64],
    moved: Option<QueueEntry>,
    queues: &mut [Part<E>],
)
    requires some { 0 < length lengths.now }
    requires few { length lengths.now ≤ HARTS }
    requires lengths { lengths.now
        ≡ map (λ place. length (queue_in (valued E.state place))) queues.old }
    requires queues { All (λ place. IsPartOf (component.Queue 0) (valued E.state place)) queues.old }
    requires moved { (k : ℕ) (d : _) → SaysMoved (k == longest lengths.now)
        (is_uneven lengths.now) (queue_in (valued E.state (slice_index_or queues.old k d)))
        moved }
    requires entry { IfSome moved IsEntry }
    ensures long { length queues.new ≡ length queues.old }
    ensures each { (k : ℕ) (d : _) → k < length queues.old → Balances lengths.now moved k
        (valued E.state (slice_index_or queues.old k d))
        (valued E.state (slice_index_or queues.new k d)) }
{
    for number in 0..queues.len() {
        balance_one(number as u8, lengths, moved, &mut queues[number]);
    }
}

// The same of one queue.
fn balance_one<E: Emulator>(
    number: u8,
    lengths: &[u64],
    moved: Option<QueueEntry>,
    place: &mut Part<E>,
)
    requires some { 0 < length lengths.now }
    requires few { length lengths.now ≤ HARTS }
    requires queue { IsPartOf (component.Queue 0) (valued E.state place.old) }
    requires length { get_or lengths.now number 0 ≡ length (queue_in (valued E.state place.old)) }
    requires moved { SaysMoved (number == longest lengths.now) (is_uneven lengths.now)
        (queue_in (valued E.state place.old)) moved }
    requires entry { IfSome moved IsEntry }
    ensures { Balances lengths.now moved number (valued E.state place.old)
        (valued E.state place.new) }
{
    balance_queue(number, lengths, moved, queue_mut(place));
}
