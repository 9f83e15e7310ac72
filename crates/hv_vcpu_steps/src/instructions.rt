//! Instructions of the VCPU that a hart runs: the VCPU's part of a fetch, of an access and of a fault.
ghost use Rattle.std.specs.Prelude.{◌≡◌, ◌≢◌, ◌↔◌, true, false, Option, None, Some, IfSome, IsSome, IsTrue};
ghost use Rattle.std.specs.Option.{option_map};
ghost use Rattle.hv_answer.specs.declared.reply.Accessed.{Accessed};
ghost use Rattle.hv_answer.specs.declared.reply.Reply.TheVariants as replies;
ghost use Rattle.hv_event.specs.declared.event.ActorId.TheVariants.{Hart};
ghost use Rattle.hv_exec.specs.declared.context.After.TheVariants as afters;
ghost use Rattle.hv_handed.specs.Given.{given, pended};
ghost use Rattle.hv_handed.specs.Takes.{VcpuTakes};
ghost use Rattle.hv_rules.specs.Carry.{Carry as Carried};
ghost use Rattle.hv_rules.specs.Handed.{handed_over};
ghost use Rattle.hv_rules.specs.Vcpu.{AgreesToFault, Shows, completed, denied_cause, fault_cause, pending_of};
ghost use Rattle.hv_step.specs.declared.step.Step.TheVariants as steps;
ghost use Rattle.hv_vcpu.specs.Instruction.{IsAccess};
ghost use Rattle.hv_vcpu.specs.Table.{is_running};
ghost use Rattle.hv_vcpu_steps.specs.Instructions.{IsPending, fetches_at, is_run_of};

use crate::moves::runs_on;
use hv_answer::{Fetched, Outcome, Reply};
use hv_emu::Emulator;
use hv_exec::After;
use hv_exec::causes::{INSTRUCTION_ACCESS_FAULT, LOAD_ACCESS_FAULT, STORE_ACCESS_FAULT};
use hv_handed::{Handed, Pending, hand_nothing};
use hv_kinds::{AccessKind, Direction};
use hv_step::{Access, Fault, Fetch};
use hv_trap::choose;
use hv_vcpu::Vcpu;

/// What a VCPU shows of an instruction that it fetched.
#[derive(Clone, Copy, Debug, PartialEq, Eq)]
pub struct Executed {
    /// What the reply shows: nothing where no region gave an instruction.
    pub shown: Option<Fetched>,
    /// Where it was fetched.
    pub pc: u64,
    /// The access that it leaves pending.
    pub pending: Option<Pending>,
}

/// Whether a VCPU of the guest with a birth runs on a hart.
pub fn is_run_of(hart: u8, birth: u64, vcpu: &Vcpu) -> bool
    ensures value { result ≡ is_run_of hart birth vcpu.now }
    ensures running { IsTrue result → IsTrue (is_running vcpu.now.state) }
{
    runs_on(hart, vcpu) && vcpu.birth() == Some(birth)
}

/// The address from which a VCPU of the guest with a birth fetches for a hart; None where it doesn't run there,
/// or takes an interrupt.
pub fn fetches_at(hart: u8, birth: u64, vcpu: &Vcpu) -> Option<u64>
    ensures { result ≡ fetches_at hart birth vcpu.now }
{
    if !is_run_of(hart, birth, vcpu) {
        return None;
    }
    match choose(vcpu.ctx()) {
        None => Some(vcpu.ctx().pc),
        Some(_) => None,
    }
}

/// Carries out the instruction that the region gives, but for the access of a load or a store; without a word it is
/// a trap.
pub fn fetch(hart: u8, step: Fetch, word: Option<u32>, vcpu: &mut Vcpu) -> Executed
    requires { IsSome (fetches_at hart step.generation.birth vcpu.old) }
    ensures vcpu { (c : Carried) → c.pc ≡ Some result.pc
        → c.pending ≡ option_map pended result.pending
        → VcpuTakes (Hart hart) (steps.Fetch step) (replies.Fetch result.shown) c
        vcpu.old vcpu.new }
    ensures word { option_map (λ fetched. fetched.word) result.shown ≡ word }
    ensures pending { IfSome result.pending IsPending }
{
    let _ = (hart, step);
    let pc = vcpu.ctx().pc;
    let Some(word) = word else {
        vcpu.trapped(INSTRUCTION_ACCESS_FAULT, pc);
        return Executed {
            shown: None,
            pc,
            pending: None,
        };
    };
    let after = vcpu.fetched(word);
    Executed {
        shown: Some(Fetched {
            word,
            outcome: outcome_of(after),
        }),
        pc,
        pending: pending_of(after),
    }
}

// What an instruction came to.
fn outcome_of(after: After) -> Outcome
    requires { after ≢ afters.System }
    ensures { Shows after result }
{
    match after {
        After::Done => Outcome::Done,
        After::Wait => Outcome::Wait,
        After::Load { .. } => Outcome::Access,
        After::Store { .. } => Outcome::Access,
        After::Trap { cause, .. } => Outcome::Trap(cause),
        After::System => unreachable!(),
    }
}

// The access that an instruction leaves pending.
fn pending_of(after: After) -> Option<Pending>
    ensures pending { option_map pended result ≡ pending_of after }
    ensures rules { IsAccess after → IfSome result IsPending }
{
    match after {
        After::Load {
            addr,
            size,
            signed,
            rd,
        } => Some(Pending::Load {
            address: addr,
            size,
            is_signed: signed,
            register: rd,
        }),
        After::Store { addr, size, value } => Some(Pending::Store {
            address: addr,
            size,
            value,
        }),
        _ => None,
    }
}

/// Ends the pending access of a VCPU with what the region answered, the value of a load; without an answer it is a
/// trap.
pub fn access(hart: u8, step: Access, pending: Pending, answer: Option<u64>, vcpu: &mut Vcpu)
    requires run { IsTrue (is_run_of hart step.generation.birth vcpu.old) }
    requires pending { IsPending pending }
    ensures { (shown : Option Accessed) (c : Carried) → option_map (λ a. a.value) shown ≡ answer
        → c.pending ≡ Some (pended pending)
        → VcpuTakes (Hart hart) (steps.Access step) (replies.Access shown) c vcpu.old vcpu.new }
{
    let _ = hart;
    match answer {
        None => vcpu.trapped(denied_cause(step.direction), step.address),
        Some(value) => end_access(pending, value, vcpu),
    }
}

// Ends a load with a value, or a store.
fn end_access(pending: Pending, value: u64, vcpu: &mut Vcpu)
    requires running { IsTrue (is_running vcpu.old.state) }
    requires pending { IsPending pending }
    ensures { vcpu.new ≡ completed (Some (pended pending)) value vcpu.old }
{
    match pending {
        Pending::Load {
            size,
            is_signed,
            register,
            ..
        } => vcpu.loaded(size, is_signed, register, value),
        Pending::Store { .. } => vcpu.stored(),
    }
}

// The cause of the trap at an access that a region denied.
fn denied_cause(direction: Direction) -> u64
    ensures { result ≡ denied_cause direction }
{
    match direction {
        Direction::Read => LOAD_ACCESS_FAULT,
        Direction::Write => STORE_ACCESS_FAULT,
    }
}

/// Takes the fault of an access that no window holds; None where the VCPU doesn't make this access on the hart.
pub fn fault<E: Emulator>(hart: u8, step: Fault, vcpu: &mut Vcpu) -> Option<(Reply, Handed<E>)>
    ensures none { result ≡ None → is_run_of hart step.generation.birth vcpu.old ≡ true
        → AgreesToFault vcpu.old step.access step.address → ⊥ }
    ensures kept { result ≡ None → vcpu.new ≡ vcpu.old }
    ensures vcpu { IfSome result (λ made. VcpuTakes (Hart hart) (steps.Fault step) made.0
        (given E.state made.1.value) vcpu.old vcpu.new) }
    ensures handed { IfSome result (λ made. handed_over (steps.Fault step)
        (given E.state made.1.value) ≡ given E.state made.1.value) }
{
    if !is_run_of(hart, step.generation.birth, vcpu) || !can_fault(step, vcpu) {
        return None;
    }
    let cause = fault_cause(step.access);
    vcpu.trapped(cause, step.address);
    Some((Reply::Fault(cause), hand_nothing()))
}

// Whether a VCPU can fault so: of an instruction, at its pc, and where no interrupt can be taken.
fn can_fault(step: Fault, vcpu: &Vcpu) -> bool
    ensures { IsTrue result ↔ AgreesToFault vcpu.now step.access step.address }
{
    match step.access {
        AccessKind::Execute => step.address == vcpu.ctx().pc && choose(vcpu.ctx()).is_none(),
        AccessKind::Read => true,
        AccessKind::Write => true,
    }
}

// The cause of the trap at an access that no window holds.
fn fault_cause(access: AccessKind) -> u64
    ensures { result ≡ fault_cause access }
{
    match access {
        AccessKind::Execute => INSTRUCTION_ACCESS_FAULT,
        AccessKind::Read => LOAD_ACCESS_FAULT,
        AccessKind::Write => STORE_ACCESS_FAULT,
    }
}
