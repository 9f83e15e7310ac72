//! Steps on the directory.
ghost use Rattle.std.specs.Prelude.{◌≡◌, Some, Err, Ok, IfOk, OnErr};
ghost use Rattle.std.specs.Result.{result_ok};
ghost use Rattle.hv_dir.specs.Directory.{guest_at};
ghost use Rattle.hv_handed.specs.Given.{given};
ghost use Rattle.hv_handed.specs.Takes.{DirTakes};
ghost use Rattle.hv_rules.specs.Carry.{nothing};
ghost use Rattle.hv_rules.specs.Dir.{listed_guests};
ghost use Rattle.hv_answer.specs.declared.reply.Reply.TheVariants as reply;
ghost use Rattle.hv_step.specs.declared.step.Guests.{Guests};
ghost use Rattle.hv_step.specs.declared.step.Step.TheVariants as step;

use crate::admission::refusal_of;
use crate::handed::{guest_handed, stop_handed};
use hv_answer::Reply;
use hv_dir::{Dir, DirRefusal};
use hv_emu::Emulator;
use hv_handed::{Handed, hand_nothing};
use hv_kinds::Generation;
use hv_listing::{GuestList, ListedGuest};
use hv_refusal::Refusal;
use hv_text::SLOTS;
use std::alloc::{AllocError, Global};
use std::snapshot::Snapshot;

/// Lists the guests by slot.
pub fn guests<E: Emulator>(alloc: Global, dir: &Dir) -> Result<(Reply, Handed<E>), AllocError>
    ensures dir { IfOk result (λ made. (s : Guests)
        → DirTakes (step.Guests s) made.0 (given E.state made.1.value) dir.now dir.now) }
    ensures handed { IfOk result (λ made. given E.state made.1.value ≡ nothing) }
{
    let guests = listed_guests(alloc, dir)?;
    Ok((Reply::Guests(guests), hand_nothing()))
}

/// The guests by slot.
fn listed_guests(alloc: Global, dir: &Dir) -> Result<GuestList, AllocError>
    ensures { IfOk result (λ guests. guests ≡ listed_guests dir.now) }
{
    // That the directory has as many entries as there are slots, it tells when it is asked.
    let first = dir.at_slot(0);
    let _ = first;
    let mut guests = Vec::new(alloc);
    for slot in 0..SLOTS {
        if let Some(guest) = dir.at_slot(slot as u8) {
            guests.push(ListedGuest {
                name: guest.name.clone()?,
                slot: guest.slot,
                stage: guest.stage,
            })?;
        }
    }
    Ok(GuestList::from_vec(guests))
}

/// Claims a slot for a guest, unless its name was refused before.
pub fn name<E: Emulator>(
    alloc: Global,
    dir: &mut Dir,
    name: &[u8],
    stopped: Option<Refusal>,
) -> Result<(Reply, Handed<E>), AllocError>
    ensures dir { IfOk result (λ made. DirTakes (step.Name (record { name = name.now })) made.0
        (given E.state made.1.value) dir.old dir.new) }
    ensures handed { IfOk result (λ made. given E.state made.1.value
        ≡ record nothing { stopped = stopped }) }
    ensures kept { OnErr result (dir.new ≡ dir.old) }
{
    match stopped {
        Some(why) => {
            let handed = stop_handed(Some(Snapshot::of(&why)));
            Ok((Reply::Name(Err(why)), handed))
        }
        None => {
            let claimed = claim(alloc, dir, name)?;
            Ok((Reply::Name(claimed), stop_handed(None)))
        }
    }
}

/// Claims a slot for a guest.
fn claim(
    alloc: Global,
    dir: &mut Dir,
    name: &[u8],
) -> Result<Result<Generation, Refusal>, AllocError>
    ensures claimed { IfOk result (λ claim. DirTakes (step.Name (record { name = name.now }))
        (reply.Name claim) nothing dir.old dir.new) }
    ensures kept { OnErr result (dir.new ≡ dir.old) }
{
    match dir.claim(alloc, name) {
        Ok((slot, birth)) => Ok(Ok(Generation { slot, birth })),
        Err(DirRefusal::Memory(error)) => Err(error),
        Err(why) => Ok(Err(refusal_of(why))),
    }
}

/// Turns a guest to its next stage, or gives its slot up, and hands over which guest it is.
pub fn stage<E: Emulator>(
    dir: &mut Dir,
    name: &[u8],
    from: hv_kinds::Stage,
    to: Option<hv_kinds::Stage>,
) -> (Reply, Handed<E>)
    ensures dir { DirTakes (step.Stage (record { name = name.now; from = from; to = to })) result.0
        (given E.state result.1.value) dir.old dir.new }
    ensures handed { given E.state result.1.value
        ≡ record nothing { guest = result_ok (guest_at dir.old name.now from) } }
{
    let guest = dir.at(name, from).ok();
    let turned = match dir.turn_to(name, from, to) {
        Ok(()) => Ok(()),
        Err(why) => Err(refusal_of(why)),
    };
    (Reply::Stage(turned), guest_handed(guest))
}
