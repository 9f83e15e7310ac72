//! What commands of one step show.
ghost use Rattle.std.specs.Prelude.{OnOk, List};
ghost use Rattle.hv_model.specs.Plans.{Planned};
ghost use Rattle.hv_shown.specs.Appends.{AppendsReply, AppendsStep, AreRegionsOf, IsShown, IsStepShown};

use crate::answers::{
    show_bytes, show_file, show_names, show_nothing, show_output, show_source, show_words,
};
use crate::guests::{show_guests, show_windows};
use crate::lines::{show_done, show_refused};
use crate::looks::show_dump;
use crate::memory::show_memory;
use hv_answer::Reply;
use hv_region::RegionPlan;
use hv_step::Step;
use hv_text::Bytes;
use std::alloc::{AllocError, Global};

/// Shows what a reply says by itself.
pub fn show_reply(alloc: Global, to: &mut Bytes, reply: &Reply) -> Result<(), AllocError>
    requires { IsShown reply.now }
    ensures { OnOk result (AppendsReply reply.now to.old to.new) }
{
    match reply {
        Reply::Bad(why) => show_refused(alloc, to, why),
        Reply::Ls(answer) => show_names(alloc, to, answer),
        Reply::Cat(answer) => show_file(alloc, to, answer),
        Reply::Dts(answer) => show_source(alloc, to, answer),
        Reply::Run(answer) => show_nothing(alloc, to, answer),
        Reply::Mkdir(answer) => show_nothing(alloc, to, answer),
        Reply::Rm(answer) => show_nothing(alloc, to, answer),
        Reply::Write(answer) => show_nothing(alloc, to, answer),
        Reply::Asm(answer) => show_words(alloc, to, answer),
        Reply::Guests(guests) => show_guests(alloc, to, guests),
        Reply::Add(answer) => show_nothing(alloc, to, answer),
        Reply::Drop(answer) => show_nothing(alloc, to, answer),
        Reply::Load(answer) => show_bytes(alloc, to, answer),
        Reply::Feed(answer) => show_nothing(alloc, to, answer),
        Reply::Output(answer) => show_output(alloc, to, answer),
        Reply::Kick(answer) => show_nothing(alloc, to, answer),
        Reply::Resume(answer) => show_nothing(alloc, to, answer),
        Reply::Pause(answer) => show_nothing(alloc, to, answer),
        Reply::Halt(answer) => show_nothing(alloc, to, answer),
        Reply::Reset(answer) => show_nothing(alloc, to, answer),
        _ => unreachable!(),
    }
}

/// Shows what the reply to a command's step says, given the regions of the guest that it names.
pub fn show_step(
    alloc: Global,
    to: &mut Bytes,
    regions: &[RegionPlan],
    step: &Step,
    reply: &Reply,
) -> Result<(), AllocError>
    requires { IsStepShown step.now reply.now }
    ensures { OnOk result ((plans : List Planned) → AreRegionsOf plans step.now regions.now
        → AppendsStep plans step.now reply.now to.old to.new) }
{
    match (step, reply) {
        (Step::Regions(_), Reply::Regions(answer)) => show_windows(alloc, to, regions, answer),
        (Step::Mem(mem), Reply::Mem(answer)) => show_memory(alloc, to, mem.address, answer),
        (Step::Look(look), Reply::Look(seen)) => {
            show_dump(alloc, to, look.vcpu, seen.as_look())?;
            show_done(to)
        }
        _ => show_reply(alloc, to, reply),
    }
}
