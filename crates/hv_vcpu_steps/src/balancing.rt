//! The balancing of queues by the orphan: their lengths, and what each queue gives or takes.
ghost use Rattle.std.specs.Prelude.{◌≡◌, ◌<◌, ◌≤◌, ◌==◌, ◌++◌, ◌∷◌, [], length, get_or, vec_len, vec_capacity, None, false, IfSome};
ghost use Rattle.hv_answer.specs.declared.reply.Reply.TheVariants as replies;
ghost use Rattle.hv_event.specs.declared.event.ActorId.TheVariants.{Hart};
ghost use Rattle.hv_handed.specs.Given.{given};
ghost use Rattle.hv_handed.specs.Takes.{QueueTakes, VcpuTakes};
ghost use Rattle.hv_queue.specs.Queue.{IsEntry};
ghost use Rattle.hv_rules.specs.Balance.{is_uneven, longest, shortest, told_move};
ghost use Rattle.hv_rules.specs.Carry.{Carry as Carried};
ghost use Rattle.hv_rules.specs.Handed.{handed_over};
ghost use Rattle.hv_rules.specs.Queue.{SaysMoved, balanced};
ghost use Rattle.hv_rules.specs.Vcpu.{runs_on};
ghost use Rattle.hv_step.specs.declared.step.Balance.{Balance};
ghost use Rattle.hv_step.specs.declared.step.Step.TheVariants as steps;
ghost use Rattle.hv_text.specs.declared.limits.TheConstants.{HARTS};

use crate::hands::hand_balance;
use crate::lengths::{longest, shortest, tell_move};
use crate::moves::runs_on;
use hv_answer::Reply;
use hv_emu::Emulator;
use hv_handed::Handed;
use hv_queue::{Queue, QueueEntry};
use hv_step::Balance;
use hv_vcpu::Vcpu;

/// The length of one more queue, in a list that has room for it.
pub fn measure(queue: &Queue, lengths: &mut Vec<u64>)
    requires { vec_len lengths.old < vec_capacity lengths.old }
    ensures length { lengths.new.items ≡ lengths.old.items ++ length queue.now ∷ [] }
    ensures room { vec_capacity lengths.new ≡ vec_capacity lengths.old }
{
    lengths.push_reserved(queue.len() as u64);
}

/// Balances the queues of these lengths, by which an entry moves or none (`balance_queue`): the orphan's
/// part, which stays as it is; None where it doesn't run on the hart.
pub fn balance<E: Emulator>(
    hart: u8,
    step: Balance,
    lengths: &Vec<u64>,
    moved: Option<QueueEntry>,
    orphan: &Vcpu,
) -> Option<(Reply, Handed<E>)>
    requires some { 0 < length lengths.now.items }
    requires few { length lengths.now.items ≤ HARTS }
    ensures none { result ≡ None → runs_on (Hart hart) orphan.now.state ≡ false }
    ensures reply { IfSome result (λ made. made.0
        ≡ replies.Balance (told_move lengths.now.items moved)) }
    ensures lengths { IfSome result (λ made. (given E.state made.1.value).lengths
        ≡ lengths.now.items) }
    ensures moved { IfSome result (λ made. (given E.state made.1.value).moved ≡ moved) }
    ensures vcpu { IfSome result (λ made. VcpuTakes (Hart hart) (steps.Balance step) made.0
        (given E.state made.1.value) orphan.now orphan.now) }
    ensures handed { IfSome result (λ made. handed_over (steps.Balance step)
        (given E.state made.1.value) ≡ given E.state made.1.value) }
{
    let _ = step;
    if !runs_on(hart, orphan) {
        return None;
    }
    Some((tell_move(lengths, moved), hand_balance(lengths, moved)))
}

/// A queue at a balance of the queues of these lengths, once it is known which entry moves, the last
/// one of the longest queue if they are uneven: that queue gives it, and the shortest takes it.
pub fn balance_queue(number: u8, lengths: &[u64], moved: Option<QueueEntry>, queue: &mut Queue)
    requires some { 0 < length lengths.now }
    requires few { length lengths.now ≤ HARTS }
    requires length { get_or lengths.now number 0 ≡ length queue.old }
    requires moved { SaysMoved (number == longest lengths.now) (is_uneven lengths.now) queue.old
        moved }
    requires entry { IfSome moved IsEntry }
    ensures { (s : Balance) (c : Carried) → c.lengths ≡ lengths.now → c.moved ≡ moved
        → QueueTakes number (steps.Balance s) (replies.Balance (told_move lengths.now moved)) c
        queue.old queue.new }
{
    let is_longest = number as usize == longest(lengths);
    let is_shortest = number as usize == shortest(lengths);
    move_entry(is_longest, is_shortest, moved, queue);
}

// Gives the moved entry, if there is one, or takes it.
fn move_entry(is_longest: bool, is_shortest: bool, moved: Option<QueueEntry>, queue: &mut Queue)
    requires { IfSome moved IsEntry }
    ensures { queue.new ≡ balanced is_longest is_shortest moved queue.old }
{
    let Some(entry) = moved else {
        return;
    };
    if is_longest {
        queue.pop_last();
    } else if is_shortest {
        queue.push(entry.vcpu, entry.priority);
    }
}
