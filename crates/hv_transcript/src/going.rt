//! What a step of a line shows: a VCPU at which it looks, and the line's end.
ghost use Rattle.std.specs.Prelude.{◌≡◌, ◌+◌, ◌<◌, ◌^◌, ◌++◌, IfOk, OnOk};
ghost use Rattle.std.specs.Option.{option_copied};
ghost use Rattle.hv_model.specs.Transcript.{changed_by, ended_shown, line_shown, look_shown};
ghost use Rattle.hv_rules.specs.Line.{place_after, why_refused};
ghost use Rattle.hv_transcript.specs.Kept.{ShowsGoing};
ghost use Rattle.hv_transcript.specs.Telling.{with_told};

use crate::kept::{Kept, changed_by, learnt};
use hv_answer::Reply;
use hv_programs::Line;
use hv_refusal::Refusal;
use hv_shown::{show_end, show_state};
use hv_step::Step;
use hv_terminals::Plans;
use hv_text::Bytes;
use std::alloc::{AllocError, Global};

// A VCPU at which a line looks.
fn show_look(alloc: Global, to: &mut Bytes, step: &Step, reply: &Reply) -> Result<(), AllocError>
    ensures { OnOk result (to.new ≡ to.old ++ look_shown step.now reply.now) }
{
    match (step, reply) {
        (Step::Look(look), Reply::Look(seen)) => {
            show_state(alloc, to, look.vcpu, seen.as_look().state)
        }
        _ => Ok(()),
    }
}

// Why a line turned back or ended, if it did, once a reply is taken, where it had done so for this.
#[tactic(auto, using(crate::proofs::Lines::why_stays, crate::proofs::Lines::why_found))]
fn why_after<'a>(line: &Line, refused: Option<&'a Refusal>, reply: &'a Reply) -> Option<&'a Refusal>
    requires { option_copied refused ≡ why_refused line.now.place }
    ensures { option_copied result ≡ why_refused (place_after line.now.place reply.now) }
{
    match refused {
        Some(why) => Some(why),
        None => line.why_refused(reply),
    }
}

// The end of a line: what it gives, or why it is refused.
fn show_over(
    alloc: Global,
    to: &mut Bytes,
    plans: &Plans,
    line: &Line,
    known: &Kept,
    changed: u64,
    why: Option<&Refusal>,
) -> Result<(), AllocError>
    ensures { OnOk result (to.new ≡ to.old ++ ended_shown (option_copied why.entry)
        (line_shown plans.now line.now.asked known.now.guest changed)) }
{
    let vcpus = plans.vcpus_of(line.guest_name()).len() as u64;
    show_end(alloc, to, line.asked(), known.guest, changed, vcpus, why)
}

/// Shows a step of a line of which this was known, and gives what is known of it then.
pub(crate) fn show_going(
    alloc: Global,
    to: &mut Bytes,
    plans: &Plans,
    line: &Line,
    known: &Kept,
    step: &Step,
    reply: &Reply,
) -> Result<Kept, AllocError>
    requires refused { known.now.refused ≡ why_refused line.now.place }
    requires bounded { known.now.changed + 1 < 2 ^ 64 }
    ensures { IfOk result (ShowsGoing plans.now (with_told known.now.guest line.now)
        (known.now.changed + changed_by reply.now) step.now reply.now to.old to.new) }
{
    let changed = known.changed + changed_by(reply);
    let why = why_after(line, known.refused.as_ref(), reply);
    show_look(alloc, to, step, reply)?;
    match line.next_ask_after(reply) {
        Some(_) => {
            let left = Kept::of_line(changed, learnt(known.guest, reply), why)?;
            Ok(left)
        }
        None => {
            show_over(alloc, to, plans, line, known, changed, why)?;
            Ok(Kept::of_none())
        }
    }
}
