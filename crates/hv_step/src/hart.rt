//! Steps of harts, and of the signals that devices send, read from their words.
ghost use Rattle.std.specs.Prelude.{MatchResult};
ghost use Rattle.hv_data.specs.Reading.{Because};
ghost use Rattle.hv_step.specs.Reading.{AreArguments, AreNoArguments};

use crate::front::take_born;
use crate::step::{Access, Fault, Fetch, Pin, Sample, Step};
use hv_data::{WordRefusal, take_access_kind, take_address, take_direction, take_number8};
use hv_name::StepName;
use hv_text::Bytes;
use std::alloc::Global;

pub fn read_fetch(alloc: Global, words: &[Bytes]) -> Result<(Step, &[Bytes]), WordRefusal>
    ensures { MatchResult result
        (λ found. AreArguments StepName.Fetch words.now found.0 found.1.now)
        (λ e. Because e (AreNoArguments StepName.Fetch words.now)) }
{
    let (vcpu, words) = take_number8(alloc, words)?;
    let (row, words) = take_number8(alloc, words)?;
    let (generation, words) = take_born(alloc, words)?;
    Ok((
        Step::Fetch(Fetch {
            vcpu,
            row,
            generation,
        }),
        words,
    ))
}

pub fn read_access(alloc: Global, words: &[Bytes]) -> Result<(Step, &[Bytes]), WordRefusal>
    ensures { MatchResult result
        (λ found. AreArguments StepName.Access words.now found.0 found.1.now)
        (λ e. Because e (AreNoArguments StepName.Access words.now)) }
{
    let (vcpu, words) = take_number8(alloc, words)?;
    let (row, words) = take_number8(alloc, words)?;
    let (address, words) = take_address(alloc, words)?;
    let (size, words) = take_number8(alloc, words)?;
    let (direction, words) = take_direction(words)?;
    let (value, words) = take_address(alloc, words)?;
    let (generation, words) = take_born(alloc, words)?;
    Ok((
        Step::Access(Access {
            vcpu,
            row,
            address,
            size,
            direction,
            value,
            generation,
        }),
        words,
    ))
}

pub fn read_fault(alloc: Global, words: &[Bytes]) -> Result<(Step, &[Bytes]), WordRefusal>
    ensures { MatchResult result
        (λ found. AreArguments StepName.Fault words.now found.0 found.1.now)
        (λ e. Because e (AreNoArguments StepName.Fault words.now)) }
{
    let (vcpu, words) = take_number8(alloc, words)?;
    let (address, words) = take_address(alloc, words)?;
    let (size, words) = take_number8(alloc, words)?;
    let (access, words) = take_access_kind(words)?;
    let (generation, words) = take_born(alloc, words)?;
    Ok((
        Step::Fault(Fault {
            vcpu,
            address,
            size,
            access,
            generation,
        }),
        words,
    ))
}

pub fn read_sample(alloc: Global, words: &[Bytes]) -> Result<(Step, &[Bytes]), WordRefusal>
    ensures { MatchResult result
        (λ found. AreArguments StepName.Sample words.now found.0 found.1.now)
        (λ e. Because e (AreNoArguments StepName.Sample words.now)) }
{
    let (row, words) = take_number8(alloc, words)?;
    let (parent, words) = take_number8(alloc, words)?;
    let (source, words) = take_number8(alloc, words)?;
    let (generation, words) = take_born(alloc, words)?;
    Ok((
        Step::Sample(Sample {
            row,
            parent,
            source,
            generation,
        }),
        words,
    ))
}

pub fn read_pin(alloc: Global, words: &[Bytes]) -> Result<(Step, &[Bytes]), WordRefusal>
    ensures { MatchResult result
        (λ found. AreArguments StepName.Pin words.now found.0 found.1.now)
        (λ e. Because e (AreNoArguments StepName.Pin words.now)) }
{
    let (row, words) = take_number8(alloc, words)?;
    let (vcpu, words) = take_number8(alloc, words)?;
    let (generation, words) = take_born(alloc, words)?;
    Ok((
        Step::Pin(Pin {
            row,
            vcpu,
            generation,
        }),
        words,
    ))
}
