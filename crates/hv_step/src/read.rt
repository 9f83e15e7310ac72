//! Steps read from their words.
ghost use Rattle.std.specs.Prelude.{List, ℕ, MatchResult};
ghost use Rattle.hv_data.specs.Reading.{Because};
ghost use Rattle.hv_step.specs.declared.step.Step.{Step};
ghost use Rattle.hv_step.specs.Words.{BeginWithStep, BeginWithNoStep, IsOneStep};
ghost use Rattle.hv_step.specs.Reading.{AreArguments, AreNoArguments};

use crate::front::{take_region, take_staged};
use crate::hart::{read_access, read_fault, read_fetch, read_pin, read_sample};
use crate::region::{
    read_asm, read_feed, read_load, read_mem, read_regions, read_stage, read_write,
};
use crate::step::{
    Add, Bad, Balance, Cat, Devreset, Dispatch, Drop, Dts, Guests, Halt, Idle, Kick, Leave, Look,
    Ls, Mkdir, Name, Output, Pause, Preempt, Reset, Rest, Resume, Rm, Run, Step, Take, Tick, Vdrop,
};
use crate::vcpu::{read_vadd, take_vcpu};
use hv_data::{WordRefusal, first_word, take_bytes, take_name, take_number8, take_path};
use hv_name::{StepName, find_name};
use hv_text::Bytes;
use std::alloc::Global;

/// The step with a name, of the words behind it, and the words behind the step.
fn read_arguments(
    alloc: Global,
    name: StepName,
    words: &[Bytes],
) -> Result<(Step, &[Bytes]), WordRefusal>
    ensures { MatchResult result
        (λ found. AreArguments name words.now found.0 found.1.now)
        (λ e. Because e (AreNoArguments name words.now)) }
{
    match name {
        StepName::Bad => {
            let (line, rest) = take_bytes(alloc, words)?;
            Ok((Step::Bad(Bad { line }), rest))
        }
        StepName::Rest => Ok((Step::Rest(Rest), words)),
        StepName::Ls => {
            let (path, rest) = take_path(alloc, words)?;
            Ok((Step::Ls(Ls { path }), rest))
        }
        StepName::Cat => {
            let (path, rest) = take_path(alloc, words)?;
            Ok((Step::Cat(Cat { path }), rest))
        }
        StepName::Dts => {
            let (path, rest) = take_path(alloc, words)?;
            Ok((Step::Dts(Dts { path }), rest))
        }
        StepName::Run => {
            let (path, rest) = take_path(alloc, words)?;
            Ok((Step::Run(Run { path }), rest))
        }
        StepName::Mkdir => {
            let (path, rest) = take_path(alloc, words)?;
            Ok((Step::Mkdir(Mkdir { path }), rest))
        }
        StepName::Rm => {
            let (path, rest) = take_path(alloc, words)?;
            Ok((Step::Rm(Rm { path }), rest))
        }
        StepName::Write => read_write(alloc, words),
        StepName::Asm => read_asm(alloc, words),
        StepName::Guests => Ok((Step::Guests(Guests), words)),
        StepName::Name => {
            let (name, rest) = take_name(alloc, words)?;
            Ok((Step::Name(Name { name }), rest))
        }
        StepName::Stage => read_stage(alloc, words),
        StepName::Add => {
            let (name, region, stage, generation, rest) = take_staged(alloc, words)?;
            Ok((
                Step::Add(Add {
                    name,
                    region,
                    stage,
                    generation,
                }),
                rest,
            ))
        }
        StepName::Drop => {
            let (name, region, stage, generation, rest) = take_staged(alloc, words)?;
            Ok((
                Step::Drop(Drop {
                    name,
                    region,
                    stage,
                    generation,
                }),
                rest,
            ))
        }
        StepName::Regions => read_regions(alloc, words),
        StepName::Load => read_load(alloc, words),
        StepName::Mem => read_mem(alloc, words),
        StepName::Devreset => {
            let (name, region, generation, rest) = take_region(alloc, words)?;
            Ok((
                Step::Devreset(Devreset {
                    name,
                    region,
                    generation,
                }),
                rest,
            ))
        }
        StepName::Feed => read_feed(alloc, words),
        StepName::Output => {
            let (name, region, generation, rest) = take_region(alloc, words)?;
            Ok((
                Step::Output(Output {
                    name,
                    region,
                    generation,
                }),
                rest,
            ))
        }
        StepName::Vadd => read_vadd(alloc, words),
        StepName::Vdrop => {
            let (vcpu, rest) = take_number8(alloc, words)?;
            Ok((Step::Vdrop(Vdrop { vcpu }), rest))
        }
        StepName::Kick => {
            let (vcpu, guest, rest) = take_vcpu(alloc, words)?;
            Ok((Step::Kick(Kick { vcpu, guest }), rest))
        }
        StepName::Resume => {
            let (vcpu, guest, rest) = take_vcpu(alloc, words)?;
            Ok((Step::Resume(Resume { vcpu, guest }), rest))
        }
        StepName::Pause => {
            let (vcpu, guest, rest) = take_vcpu(alloc, words)?;
            Ok((Step::Pause(Pause { vcpu, guest }), rest))
        }
        StepName::Halt => {
            let (vcpu, guest, rest) = take_vcpu(alloc, words)?;
            Ok((Step::Halt(Halt { vcpu, guest }), rest))
        }
        StepName::Reset => {
            let (vcpu, guest, rest) = take_vcpu(alloc, words)?;
            Ok((Step::Reset(Reset { vcpu, guest }), rest))
        }
        StepName::Look => {
            let (vcpu, rest) = take_number8(alloc, words)?;
            Ok((Step::Look(Look { vcpu }), rest))
        }
        StepName::Tick => {
            let (slot, rest) = take_number8(alloc, words)?;
            Ok((Step::Tick(Tick { slot }), rest))
        }
        StepName::Idle => Ok((Step::Idle(Idle), words)),
        StepName::Dispatch => {
            let (vcpu, rest) = take_number8(alloc, words)?;
            Ok((Step::Dispatch(Dispatch { vcpu }), rest))
        }
        StepName::Preempt => {
            let (vcpu, rest) = take_number8(alloc, words)?;
            Ok((Step::Preempt(Preempt { vcpu }), rest))
        }
        StepName::Leave => {
            let (vcpu, rest) = take_number8(alloc, words)?;
            Ok((Step::Leave(Leave { vcpu }), rest))
        }
        StepName::Take => {
            let (vcpu, rest) = take_number8(alloc, words)?;
            Ok((Step::Take(Take { vcpu }), rest))
        }
        StepName::Fetch => read_fetch(alloc, words),
        StepName::Access => read_access(alloc, words),
        StepName::Fault => read_fault(alloc, words),
        StepName::Balance => Ok((Step::Balance(Balance), words)),
        StepName::Sample => read_sample(alloc, words),
        StepName::Pin => read_pin(alloc, words),
    }
}

/// The step whose words these words begin with, and the words behind it.
///
/// A step of a VCPU is by guest where the second word behind its number begins with `@`.
pub fn read_step(alloc: Global, words: &[Bytes]) -> Result<(Step, &[Bytes]), WordRefusal>
    ensures { MatchResult result
        (λ found. BeginWithStep words.now found.0 found.1.now)
        (λ e. Because e (BeginWithNoStep words.now)) }
{
    let Some((first, behind)) = first_word(words) else {
        return Err(WordRefusal::BadWord);
    };
    let Some(name) = find_name(first) else {
        return Err(WordRefusal::BadWord);
    };
    read_arguments(alloc, name, behind)
}

/// Words begin with those of one written step at most, and have one rest behind it.
pub fn steps_are_unambiguous()
    ensures { (words : List (List ℕ)) (one other : Step) (rest behind : List (List ℕ))
        → BeginWithStep words one rest → BeginWithStep words other behind → IsOneStep one other rest behind }
{}
