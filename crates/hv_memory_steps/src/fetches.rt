//! Fetches: the bytes at a VCPU's pc, and the instruction that they are.
ghost use Rattle.std.specs.Prelude.{◌≡◌, ◌+◌, ◌≤◌, None, IfSome, IsSome, IsSomeAnd, length};
ghost use Rattle.std.specs.Option.{option_map};
ghost use Rattle.hv_answer.specs.declared.reply.Reply.{Reply};
ghost use Rattle.hv_body.specs.Body.{seen};
ghost use Rattle.hv_body.specs.Rules.{FitsAnswer};
ghost use Rattle.hv_event.specs.declared.event.ActorId.TheVariants.{Hart};
ghost use Rattle.hv_handed.specs.Given.{given, pended};
ghost use Rattle.hv_handed.specs.Takes.{AreaTakes, BodyTakes, VcpuTakes};
ghost use Rattle.hv_handed.specs.Told.{IsTold};
ghost use Rattle.hv_rules.specs.Body.{ShowsWord, area_in, fetch_from};
ghost use Rattle.hv_step.specs.declared.step.Step.TheVariants as steps;
ghost use Rattle.hv_vcpu_steps.specs.Instructions.{IsPending, fetches_at};
ghost use Rattle.hv_memory_steps.specs.Hands.{fetch_carry};
ghost use Rattle.hv_memory_steps.specs.Fetches.{ShowsFetched, fetch_for};

use crate::hands::made_fetch;
use crate::places::place_of;
use hv_answer::Reply;
use hv_body::{Answer, Area, BodyOf};
use hv_emu::Emulator;
use hv_handed::Made;
use hv_step::Fetch;
use hv_vcpu::Vcpu;
use hv_vcpu_steps::fetches_at;

/// How many bytes an instruction has.
const INSTRUCTION_SIZE: u8 = 4;

/// The area, and the offset there, that gives the instruction of a hart's fetch; None where none is
/// needed.
pub fn area_fetched<E: Emulator>(
    hart: u8,
    step: Fetch,
    vcpu: &Vcpu,
    body: &BodyOf<E>,
) -> Option<(u8, u64)>
    ensures { result ≡ area_in (fetch_for hart step vcpu.now (seen E.state body.now)) }
{
    let pc = fetches_at(hart, step.generation.birth, vcpu)?;
    area_in(fetch_from(body, step.generation.birth, pc))
}

/// Fetches what a region of its own gives, and carries it out; None where the VCPU doesn't fetch for
/// the hart, or no window of the region holds its pc.
pub fn fetch<E: Emulator>(
    hart: u8,
    step: Fetch,
    vcpu: &mut Vcpu,
    body: &BodyOf<E>,
) -> Option<Made<E>>
    requires { area_in (fetch_for hart step vcpu.old (seen E.state body.now)) ≡ None }
    ensures none { result ≡ None → (r : Reply)
        → ShowsWord (fetch_for hart step vcpu.old (seen E.state body.now)) r → ⊥ }
    ensures kept { result ≡ None → vcpu.new ≡ vcpu.old }
    ensures vcpu { IfSome result (λ made. VcpuTakes (Hart hart) (steps.Fetch step) made.reply
        (given E.state made.handed.value) vcpu.old vcpu.new) }
    ensures body { IfSome result (λ made. BodyTakes step.row (steps.Fetch step) made.reply
        (given E.state made.handed.value) (seen E.state body.now) (seen E.state body.now)) }
    ensures handed { IfSome result (λ made. given E.state made.handed.value
        ≡ fetch_carry (fetches_at hart step.generation.birth vcpu.old)
        (option_map pended made.told.pending) None) }
    ensures told { IfSome result (λ made. IsTold (given E.state made.handed.value) made.told) }
    ensures pending { IfSome result (λ made. IfSome made.told.pending IsPending) }
{
    let pc = fetches_at(hart, step.generation.birth, vcpu)?;
    let word = word_of(fetch_from(body, step.generation.birth, pc))?;
    Some(carry_out(hart, step, word, None, vcpu))
}

/// The same where an area gives the instruction.
pub fn fetch_shared<E: Emulator>(
    hart: u8,
    step: Fetch,
    vcpu: &mut Vcpu,
    body: &BodyOf<E>,
    area: &Area,
) -> Made<E>
    requires { IsSomeAnd (area_in (fetch_for hart step vcpu.old (seen E.state body.now)))
        (λ place. place.1 + 4 ≤ length area.now) }
    ensures vcpu { VcpuTakes (Hart hart) (steps.Fetch step) result.reply
        (given E.state result.handed.value) vcpu.old vcpu.new }
    ensures body { BodyTakes step.row (steps.Fetch step) result.reply
        (given E.state result.handed.value) (seen E.state body.now) (seen E.state body.now) }
    ensures area { AreaTakes (steps.Fetch step) result.reply
        (given E.state result.handed.value) area.now area.now }
    ensures handed { given E.state result.handed.value
        ≡ fetch_carry (fetches_at hart step.generation.birth vcpu.old)
        (option_map pended result.told.pending)
        (area_in (fetch_for hart step vcpu.old (seen E.state body.now))) }
    ensures told { IsTold (given E.state result.handed.value) result.told }
    ensures pending { IfSome result.told.pending IsPending }
{
    let Some((number, offset)) = area_fetched(hart, step, vcpu, body) else {
        unreachable!();
    };
    let word = area.read(offset, INSTRUCTION_SIZE) as u32;
    carry_out(hart, step, Some(word), Some((number, offset)), vcpu)
}

/// What a region answers to the fetch of an instruction.
fn fetch_from<E: Emulator>(body: &BodyOf<E>, birth: u64, pc: u64) -> Answer
    ensures value { result ≡ fetch_from (seen E.state body.now) birth pc }
    ensures fits { FitsAnswer 4 result }
{
    match place_of(birth, pc, INSTRUCTION_SIZE) {
        Some(place) => body.fetch(place),
        None => Answer::NotHere,
    }
}

/// The area that is asked, and the offset there.
pub(crate) fn area_in(answer: Answer) -> Option<(u8, u64)>
    ensures { result ≡ area_in answer }
{
    match answer {
        Answer::InArea(number, offset) => Some((number, offset)),
        Answer::Answered(_) => None,
        Answer::Denied => None,
        Answer::NoExec => None,
        Answer::NotHere => None,
    }
}

/// The word that a region gives, which no device does; None where the region isn't reached.
fn word_of(answer: Answer) -> Option<Option<u32>>
    requires fits { FitsAnswer 4 answer }
    requires own { area_in answer ≡ None }
    ensures none { result ≡ None → (r : Reply) → ShowsWord answer r → ⊥ }
    ensures some { IfSome result (λ word. (r : Reply) → ShowsFetched word r → ShowsWord answer r) }
{
    match answer {
        Answer::Answered(word) => Some(Some(word as u32)),
        Answer::NoExec => Some(None),
        Answer::InArea(_, _) => None,
        Answer::Denied => None,
        Answer::NotHere => None,
    }
}

/// Carries out a word that is fetched, and hands over the area that gave it.
fn carry_out<E: Emulator>(
    hart: u8,
    step: Fetch,
    word: Option<u32>,
    area: Option<(u8, u64)>,
    vcpu: &mut Vcpu,
) -> Made<E>
    requires { IsSome (fetches_at hart step.generation.birth vcpu.old) }
    ensures vcpu { VcpuTakes (Hart hart) (steps.Fetch step) result.reply
        (given E.state result.handed.value) vcpu.old vcpu.new }
    ensures shown { ShowsFetched word result.reply }
    ensures handed { given E.state result.handed.value
        ≡ fetch_carry (fetches_at hart step.generation.birth vcpu.old)
        (option_map pended result.told.pending) area }
    ensures told { IsTold (given E.state result.handed.value) result.told }
    ensures pending { IfSome result.told.pending IsPending }
{
    let executed = hv_vcpu_steps::fetch(hart, step, word, vcpu);
    let reply = Reply::Fetch(executed.shown);
    made_fetch(reply, executed.pc, executed.pending, area)
}
