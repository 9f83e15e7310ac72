//! The ends of lines of several steps.
ghost use Rattle.std.specs.Prelude.{◌≡◌, ◌++◌, ℕ, Option, List, OnOk, codes, length};
ghost use Rattle.std.specs.Fmt.{decimal};
ghost use Rattle.std.specs.Option.{option_copied};
ghost use Rattle.hv_model.specs.Plans.{Planned, vcpus_of};
ghost use Rattle.hv_model.specs.Transcript.{ended_shown, line, line_shown, slot_shown};
ghost use Rattle.hv_programs.specs.Ask.{asked_of};
ghost use Rattle.hv_rules.specs.Line.{guest_name};

use crate::lines::{push_line, show_done, show_refused};
use hv_programs::Asked;
use hv_refusal::Refusal;
use hv_text::{Bytes, push_decimal};
use std::alloc::{AllocError, Global};

/// Shows the slot of the guest that a line made.
pub fn show_slot(alloc: Global, to: &mut Bytes, guest: Option<(u8, u64)>) -> Result<(), AllocError>
    ensures { OnOk result (to.new ≡ to.old ++ slot_shown guest) }
{
    match guest {
        Some((slot, _)) => {
            to.append(b"slot ")?;
            push_decimal(alloc, to, u64::from(slot))?;
            to.append(b"\n")
        }
        None => Ok(()),
    }
}

/// Shows how many VCPUs of a guest a line changed.
pub fn show_count(alloc: Global, to: &mut Bytes, changed: u64, vcpus: u64) -> Result<(), AllocError>
    ensures { OnOk result
        (to.new ≡ to.old ++ line (decimal changed ++ codes " of " ++ decimal vcpus)) }
{
    push_decimal(alloc, to, changed)?;
    to.append(b" of ")?;
    push_decimal(alloc, to, vcpus)?;
    to.append(b"\n")
}

// What a line gives at its end.
fn push_given(
    alloc: Global,
    to: &mut Bytes,
    asked: &Asked,
    guest: Option<(u8, u64)>,
    changed: u64,
    vcpus: u64,
) -> Result<(), AllocError>
    ensures { (plans : List Planned)
        → length (vcpus_of plans (guest_name (asked_of asked.now))) ≡ vcpus
        → OnOk result (to.new ≡ to.old ++ line_shown plans (asked_of asked.now) guest changed) }
{
    match asked {
        Asked::Create(_) => show_slot(alloc, to, guest),
        Asked::EachVcpu(_, _) => show_count(alloc, to, changed, vcpus),
        Asked::Rests(_) => Ok(()),
        Asked::Looks => Ok(()),
        Asked::Destroy(_) => Ok(()),
    }
}

/// Shows the end of a line: what it gives, by the guest that it made and how many of its guest's
/// VCPUs it changed, or why it is refused.
pub fn show_end(
    alloc: Global,
    to: &mut Bytes,
    asked: &Asked,
    guest: Option<(u8, u64)>,
    changed: u64,
    vcpus: u64,
    why: Option<&Refusal>,
) -> Result<(), AllocError>
    ensures { (plans : List Planned)
        → length (vcpus_of plans (guest_name (asked_of asked.now))) ≡ vcpus
        → OnOk result (to.new ≡ to.old ++ ended_shown (option_copied why.entry)
        (line_shown plans (asked_of asked.now) guest changed)) }
{
    match why {
        Some(why) => show_refused(alloc, to, why),
        None => {
            push_given(alloc, to, asked, guest, changed, vcpus)?;
            show_done(to)
        }
    }
}
