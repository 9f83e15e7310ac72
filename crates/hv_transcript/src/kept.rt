//! What a transcript knows of the present line.
ghost use Rattle.std.specs.Prelude.{◌≡◌, ◌≤◌, ℕ, None, IfOk};
ghost use Rattle.std.specs.Option.{option_copied};
ghost use Rattle.hv_model.specs.Transcript.{changed_by, counted};
ghost use Rattle.hv_rules.specs.Carry.{nothing};
ghost use Rattle.hv_rules.specs.Line.{learnt};

use crate::copied::copy_refusal;
use hv_answer::Reply;
use hv_refusal::Refusal;
use std::alloc::AllocError;

/// What a transcript knows of the present line: how many VCPUs it changed, the slot and the birth of
/// the guest that it learnt from replies alone, and why it turned back or ended, if it did.
#[derive(Drop)]
pub(crate) struct Kept {
    pub(crate) changed: u64,
    pub(crate) guest: Option<(u8, u64)>,
    pub(crate) refused: Option<Refusal>,
}

// How many VCPUs an answer says that it changed.
fn counted(answer: &Result<(), Refusal>) -> u64
    ensures count { result ≡ counted answer.now }
    ensures one { result ≤ 1 }
{
    match answer {
        Ok(_) => 1,
        Err(_) => 0,
    }
}

/// How many VCPUs a reply says that its step changed.
pub(crate) fn changed_by(reply: &Reply) -> u64
    ensures changed { result ≡ changed_by reply.now }
    ensures one { result ≤ 1 }
{
    match reply {
        Reply::Kick(answer) => counted(answer),
        Reply::Resume(answer) => counted(answer),
        Reply::Pause(answer) => counted(answer),
        Reply::Halt(answer) => counted(answer),
        Reply::Reset(answer) => counted(answer),
        _ => 0,
    }
}

/// The guest that a line knows, once a reply has told it.
pub(crate) fn learnt(guest: Option<(u8, u64)>, reply: &Reply) -> Option<(u8, u64)>
    ensures { result ≡ learnt guest reply.now nothing }
{
    match reply {
        Reply::Name(Ok(claimed)) => Some((claimed.slot, claimed.birth)),
        Reply::Stage(Ok(_)) => None,
        _ => guest,
    }
}

impl Kept {
    /// Nothing is known where no line is begun.
    pub(crate) fn of_none() -> Kept
        ensures { result ≡ record { changed = 0; guest = None; refused = None } }
    {
        Kept {
            changed: 0,
            guest: None,
            refused: None,
        }
    }

    /// What is known of a line that changed so many VCPUs, learnt this guest, and turned back or
    /// ended for this refusal, if it did.
    pub(crate) fn of_line(
        changed: u64,
        guest: Option<(u8, u64)>,
        why: Option<&Refusal>,
    ) -> Result<Kept, AllocError>
        ensures { IfOk result (λ kept. kept
            ≡ record { changed = changed; guest = guest; refused = option_copied why.entry }) }
    {
        let refused = match why {
            Some(why) => Some(copy_refusal(why)?),
            None => None,
        };
        Ok(Kept {
            changed,
            guest,
            refused,
        })
    }
}
