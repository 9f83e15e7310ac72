//! The lengths of all queues, and which of them are uneven.
ghost use Rattle.std.specs.Prelude.{◌≡◌, ◌<◌, ◌≤◌, ◌-◌, length, true, false, MatchOption};
ghost use Rattle.hv_answer.specs.declared.reply.Reply.TheVariants as replies;
ghost use Rattle.hv_rules.specs.Balance.{is_uneven, longest, shortest, told_move};
ghost use Rattle.hv_text.specs.declared.limits.TheConstants.{HARTS};

use hv_answer::{Moved, Reply};
use hv_queue::QueueEntry;

// The place of the longest queue, the first of its length.
pub(crate) fn longest(lengths: &[u64]) -> usize
    requires { 0 < length lengths.now }
    ensures place { result ≡ longest lengths.now }
    ensures range { result < length lengths.now }
{
    let mut place = lengths.len() - 1;
    for number in (0..lengths.len() - 1).rev() {
        if lengths[number] >= lengths[place] {
            place = number;
        }
    }
    place
}

// The place of the shortest queue, the first of its length.
pub(crate) fn shortest(lengths: &[u64]) -> usize
    requires { 0 < length lengths.now }
    ensures place { result ≡ shortest lengths.now }
    ensures range { result < length lengths.now }
{
    let mut place = lengths.len() - 1;
    for number in (0..lengths.len() - 1).rev() {
        if lengths[number] <= lengths[place] {
            place = number;
        }
    }
    place
}

/// The numbers of the longest queue and of the shortest; None where the queues are even.
pub fn uneven(lengths: &[u64]) -> Option<(u8, u8)>
    requires some { 0 < length lengths.now }
    requires few { length lengths.now ≤ HARTS }
    ensures { MatchOption result (is_uneven lengths.now ≡ false)
        (λ found. (is_uneven lengths.now ≡ true) × (found.0 ≡ longest lengths.now)
        × (found.1 ≡ shortest lengths.now)) }
{
    let from = longest(lengths);
    let to = shortest(lengths);
    if lengths[from] < 2 || lengths[from] - 2 < lengths[to] {
        return None;
    }
    Some((from as u8, to as u8))
}

/// The reply to a balance that moves an entry from the longest queue to the shortest, or none.
pub fn tell_move(lengths: &[u64], moved: Option<QueueEntry>) -> Reply
    requires some { 0 < length lengths.now }
    requires few { length lengths.now ≤ HARTS }
    ensures { result ≡ replies.Balance (told_move lengths.now moved) }
{
    match moved {
        None => Reply::Balance(None),
        Some(entry) => Reply::Balance(Some(Moved {
            vcpu: entry.vcpu,
            from: longest(lengths) as u8,
            to: shortest(lengths) as u8,
        })),
    }
}
