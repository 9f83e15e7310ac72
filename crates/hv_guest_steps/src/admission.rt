//! The directory's part in steps by guest.
ghost use Rattle.std.specs.Prelude.{◌≡◌, ℕ, Option, Some, None, Err, IfOk};
ghost use Rattle.hv_dir.specs.Directory.{DirState};
ghost use Rattle.hv_handed.specs.Takes.{DirTakes};
ghost use Rattle.hv_region.specs.declared.plan.RegionPlan.{RegionPlan};
ghost use Rattle.hv_rules.specs.Carry.{nothing};
ghost use Rattle.hv_rules.specs.Dir.{guest_in, refusal_of, with_region};
ghost use Rattle.hv_guest_steps.specs.Admission.{asked_of, shown_by};

use hv_answer::Reply;
use hv_dir::{Dir, DirRefusal};
use hv_kinds::{Generation, Stage};
use hv_refusal::Refusal;
use hv_step::Step;

/// The guest with a name, which has to be at a stage.
pub fn admit(dir: &Dir, name: &[u8], stage: Stage) -> Result<Generation, Refusal>
    ensures { result ≡ guest_in dir.now name.now stage }
{
    match dir.at(name, stage) {
        Ok((slot, birth)) => Ok(Generation { slot, birth }),
        Err(why) => Err(refusal_of(why)),
    }
}

/// The same for a step on a region, which is refused last where the guest's plan hasn't got it.
pub fn admit_region(
    dir: &Dir,
    name: &[u8],
    stage: Stage,
    row: Option<u8>,
) -> Result<Generation, Refusal>
    ensures { result ≡ with_region row (guest_in dir.now name.now stage) }
{
    let guest = admit(dir, name, stage)?;
    match row {
        Some(_) => Ok(guest),
        None => Err(Refusal::NoRegion),
    }
}

/// The reply to a step by guest that the directory refuses, to which it agrees, and no other
/// component is asked.
pub fn refused(step: &Step, why: Refusal) -> Reply
    ensures { (d : DirState) (row : Option ℕ) (plan : Option (RegionPlan × ℕ))
        → asked_of d step.now row ≡ Some (Err why) → shown_by step.now ≡ None
        → DirTakes step.now result (record nothing { row = row; plan = plan }) d d }
{
    match step {
        Step::Add(_) => Reply::Add(Err(why)),
        Step::Drop(_) => Reply::Drop(Err(why)),
        Step::Regions(_) => Reply::Regions(Err(why)),
        Step::Load(_) => Reply::Load(Err(why)),
        Step::Mem(_) => Reply::Mem(Err(why)),
        Step::Devreset(_) => Reply::Devreset(Err(why)),
        Step::Feed(_) => Reply::Feed(Err(why)),
        Step::Output(_) => Reply::Output(Err(why)),
        Step::Kick(_) => Reply::Kick(Err(why)),
        Step::Resume(_) => Reply::Resume(Err(why)),
        Step::Pause(_) => Reply::Pause(Err(why)),
        Step::Halt(_) => Reply::Halt(Err(why)),
        Step::Reset(_) => Reply::Reset(Err(why)),
        _ => Reply::Bad(why),
    }
}

/// A refusal of the directory, as replies show it.
pub(crate) fn refusal_of(why: DirRefusal) -> Refusal
    ensures { result ≡ refusal_of why }
{
    match why {
        DirRefusal::NameUsed => Refusal::NameUsed,
        DirRefusal::NoSlot => Refusal::NoSlot,
        DirRefusal::NoSuchGuest => Refusal::NoSuchGuest,
        DirRefusal::GuestState(stage) => Refusal::GuestState(stage),
        DirRefusal::Memory(_) => Refusal::NoSuchGuest,
    }
}
