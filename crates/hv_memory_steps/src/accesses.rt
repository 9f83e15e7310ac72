//! Accesses: the loads and stores that instructions leave pending.
ghost use Rattle.std.specs.Prelude.{◌≡◌, ◌+◌, ◌^◌, ◌<◌, ◌≤◌, None, Some, IfSome, IsSomeAnd, IsTrue, length};
ghost use Rattle.std.specs.Option.{option_map};
ghost use Rattle.hv_answer.specs.declared.reply.Reply.{Reply};
ghost use Rattle.hv_answer.specs.declared.reply.Reply.TheVariants as replies;
ghost use Rattle.hv_body.specs.Body.{seen};
ghost use Rattle.hv_event.specs.declared.event.ActorId.TheVariants.{Hart};
ghost use Rattle.hv_handed.specs.Given.{given, pended};
ghost use Rattle.hv_handed.specs.Takes.{AreaTakes, BodyTakes, VcpuTakes};
ghost use Rattle.hv_handed.specs.Told.{IsTold};
ghost use Rattle.hv_kinds.specs.declared.changes.SignalChanges.{SignalChanges};
ghost use Rattle.hv_rules.specs.Area.{accessed_area, value_read};
ghost use Rattle.hv_rules.specs.Body.{ShowsAccess, accessed, answer_to, area_in, left_by, parent_of};
ghost use Rattle.hv_rules.specs.Carry.{Carry};
ghost use Rattle.hv_rules.specs.Hart.{IsAccess};
ghost use Rattle.hv_step.specs.declared.step.Step.TheVariants as steps;
ghost use Rattle.hv_vcpu_steps.specs.Instructions.{IsPending, is_run_of};
ghost use Rattle.hv_memory_steps.specs.Hands.{access_carry};
ghost use Rattle.hv_memory_steps.specs.Accesses.{FitsAccess, Makes, access_for};

use crate::fetches::area_in;
use crate::hands::made_access;
use crate::places::place_of;
use hv_answer::{Accessed, Reply};
use hv_body::{Answer, Area, BodyOf};
use hv_emu::Emulator;
use hv_handed::{Made, Pending};
use hv_kinds::{Direction, Generation, SignalChanges};
use hv_signals::{Signals, changes, parent_of};
use hv_step::Access;
use hv_vcpu::Vcpu;
use hv_vcpu_steps::is_run_of;

const NO_CHANGES: SignalChanges = SignalChanges {
    line: false,
    pins: 0,
};

/// The step of a VCPU's pending access, in the window of a region's row.
pub fn access_step(vcpu: u8, row: u8, pending: Pending, generation: Generation) -> Access
    ensures access { (c : Carry) → c.pending ≡ Some (pended pending)
        → IsAccess vcpu (pended pending) generation result c }
    ensures makes { Makes pending result }
    ensures row { result.row ≡ row }
{
    match pending {
        Pending::Load { address, size, .. } => Access {
            vcpu,
            row,
            address,
            size,
            direction: Direction::Read,
            value: 0,
            generation,
        },
        Pending::Store {
            address,
            size,
            value,
        } => Access {
            vcpu,
            row,
            address,
            size,
            direction: Direction::Write,
            value,
            generation,
        },
    }
}

/// The area, and the offset there, that a hart's access reaches; None where none is needed.
pub fn area_accessed<E: Emulator>(
    hart: u8,
    step: Access,
    pending: Pending,
    vcpu: &Vcpu,
    body: &BodyOf<E>,
) -> Option<(u8, u64)>
    requires pending { IsPending pending }
    requires step { Makes pending step }
    ensures { result ≡ area_in (access_for hart step vcpu.now (seen E.state body.now)) }
{
    fits_access(step, pending);
    if !is_run_of(hart, step.generation.birth, vcpu) {
        return None;
    }
    let place = place_of(step.generation.birth, step.address, step.size)?;
    area_in(body.fetch(place))
}

/// Makes the pending access at what a region has of its own, and ends the instruction; None where the
/// VCPU doesn't run on the hart, or no window of the region holds the access.
pub fn access<E: Emulator>(
    hart: u8,
    step: Access,
    pending: Pending,
    vcpu: &mut Vcpu,
    body: &mut BodyOf<E>,
) -> Option<Made<E>>
    requires pending { IsPending pending }
    requires step { Makes pending step }
    requires own { area_in (access_for hart step vcpu.old (seen E.state body.old)) ≡ None }
    ensures none { result ≡ None → (changed : SignalChanges) (r : Reply)
        → ShowsAccess (access_for hart step vcpu.old (seen E.state body.old)) changed r → ⊥ }
    ensures vcpu_kept { result ≡ None → vcpu.new ≡ vcpu.old }
    ensures body_kept { result ≡ None → seen E.state body.new ≡ seen E.state body.old }
    ensures vcpu { IfSome result (λ made. VcpuTakes (Hart hart) (steps.Access step) made.reply
        (given E.state made.handed.value) vcpu.old vcpu.new) }
    ensures body { IfSome result (λ made. BodyTakes step.row (steps.Access step) made.reply
        (given E.state made.handed.value) (seen E.state body.old) (seen E.state body.new)) }
    ensures handed { IfSome result (λ made. given E.state made.handed.value
        ≡ access_carry (pended pending) None (parent_of (seen E.state body.old))) }
    ensures told { IfSome result (λ made. IsTold (given E.state made.handed.value) made.told) }
{
    if !is_run_of(hart, step.generation.birth, vcpu) {
        return None;
    }
    fits_access(step, pending);
    let parent = parent_of(body);
    let before = Signals::of(body);
    let value = value_of(access_body(step, body))?;
    let changed = changes(before, Signals::of(body));
    let reply = end_access(hart, step, pending, value, changed, vcpu);
    Some(made_access(reply, pending, None, parent))
}

/// The same at the area that a region shows.
pub fn access_shared<E: Emulator>(
    hart: u8,
    step: Access,
    pending: Pending,
    vcpu: &mut Vcpu,
    body: &BodyOf<E>,
    area: &mut Area,
) -> Made<E>
    requires pending { IsPending pending }
    requires step { Makes pending step }
    requires shared { IsSomeAnd (area_in (access_for hart step vcpu.old (seen E.state body.now)))
        (λ place. place.1 + step.size ≤ length area.old) }
    ensures vcpu { VcpuTakes (Hart hart) (steps.Access step) result.reply
        (given E.state result.handed.value) vcpu.old vcpu.new }
    ensures body { BodyTakes step.row (steps.Access step) result.reply
        (given E.state result.handed.value) (seen E.state body.now) (seen E.state body.now) }
    ensures area { AreaTakes (steps.Access step) result.reply
        (given E.state result.handed.value) area.old area.new }
    ensures handed { given E.state result.handed.value
        ≡ access_carry (pended pending) (area_in (access_for hart step vcpu.old (seen E.state body.now)))
        (parent_of (seen E.state body.now)) }
    ensures told { IsTold (given E.state result.handed.value) result.told }
{
    let Some((number, offset)) = area_accessed(hart, step, pending, vcpu, body) else {
        unreachable!();
    };
    fits_access(step, pending);
    let parent = parent_of(body);
    let value = access_area(step, offset, area);
    let reply = end_access(hart, step, pending, Some(value), NO_CHANGES, vcpu);
    made_access(reply, pending, Some((number, offset)), parent)
}

/// A pending access has 1 to 8 bytes, and a value that fits them.
fn fits_access(step: Access, pending: Pending)
    requires pending { IsPending pending }
    requires step { Makes pending step }
    ensures { FitsAccess step }
{
    let _ = (step, pending);
}

/// Loads from a region, or stores there.
fn access_body<E: Emulator>(step: Access, body: &mut BodyOf<E>) -> Answer
    requires { FitsAccess step }
    ensures answer { result ≡ answer_to (seen E.state body.old) step }
    ensures left { seen E.state body.new ≡ left_by (seen E.state body.old) step }
{
    let Some(place) = place_of(step.generation.birth, step.address, step.size) else {
        return Answer::NotHere;
    };
    match step.direction {
        Direction::Read => body.read(place),
        Direction::Write => body.write(place, step.value),
    }
}

/// Loads from an area, or stores there.
fn access_area(step: Access, offset: u64, area: &mut Area) -> u64
    requires fits { FitsAccess step }
    requires within { offset + step.size ≤ length area.old }
    ensures value { result ≡ value_read area.old step.direction offset step.size }
    ensures left { area.new ≡ accessed_area area.old step.direction offset step.size step.value }
{
    match step.direction {
        Direction::Read => area.read(offset, step.size),
        Direction::Write => {
            area.write(offset, step.size, step.value);
            0
        }
    }
}

/// The value that a region answers, or that it denies the access; None where the access isn't there.
fn value_of(answer: Answer) -> Option<Option<u64>>
    requires { area_in answer ≡ None }
    ensures none { result ≡ None → (changed : SignalChanges) (r : Reply)
        → ShowsAccess answer changed r → ⊥ }
    ensures some { IfSome result (λ value. (changed : SignalChanges)
        → ShowsAccess answer changed (replies.Access (option_map (λ v. accessed v changed) value))) }
{
    match answer {
        Answer::Answered(value) => Some(Some(value)),
        Answer::Denied => Some(None),
        Answer::InArea(_, _) => None,
        Answer::NoExec => None,
        Answer::NotHere => None,
    }
}

/// Ends the instruction with what was answered, and says so.
fn end_access(
    hart: u8,
    step: Access,
    pending: Pending,
    value: Option<u64>,
    changed: SignalChanges,
    vcpu: &mut Vcpu,
) -> Reply
    requires run { IsTrue (is_run_of hart step.generation.birth vcpu.old) }
    requires pending { IsPending pending }
    ensures reply { result ≡ replies.Access (option_map (λ v. accessed v changed) value) }
    ensures vcpu { (c : Carry) → c.pending ≡ Some (pended pending)
        → VcpuTakes (Hart hart) (steps.Access step) result c vcpu.old vcpu.new }
{
    hv_vcpu_steps::access(hart, step, pending, value, vcpu);
    match value {
        Some(value) => Reply::Access(Some(Accessed {
            value,
            changes: changed,
        })),
        None => Reply::Access(None),
    }
}
