//! Steps of files, guests and regions with several data, read from their words.
ghost use Rattle.std.specs.Prelude.{MatchResult};
ghost use Rattle.hv_data.specs.Reading.{Because};
ghost use Rattle.hv_step.specs.Reading.{AreArguments, AreNoArguments};

use crate::step::{Asm, Feed, Load, Mem, Regions, Stage, Step, Write};
use hv_data::{
    WordRefusal, take_address, take_bytes, take_generation, take_name, take_next_stage,
    take_number, take_path, take_stage,
};
use hv_name::StepName;
use hv_text::Bytes;
use std::alloc::Global;

pub fn read_write(alloc: Global, words: &[Bytes]) -> Result<(Step, &[Bytes]), WordRefusal>
    ensures { MatchResult result
        (λ found. AreArguments StepName.Write words.now found.0 found.1.now)
        (λ e. Because e (AreNoArguments StepName.Write words.now)) }
{
    let (path, words) = take_path(alloc, words)?;
    let (bytes, words) = take_bytes(alloc, words)?;
    Ok((Step::Write(Write { path, bytes }), words))
}

pub fn read_asm(alloc: Global, words: &[Bytes]) -> Result<(Step, &[Bytes]), WordRefusal>
    ensures { MatchResult result
        (λ found. AreArguments StepName.Asm words.now found.0 found.1.now)
        (λ e. Because e (AreNoArguments StepName.Asm words.now)) }
{
    let (source, words) = take_path(alloc, words)?;
    let (target, words) = take_path(alloc, words)?;
    Ok((Step::Asm(Asm { source, target }), words))
}

pub fn read_stage(alloc: Global, words: &[Bytes]) -> Result<(Step, &[Bytes]), WordRefusal>
    ensures { MatchResult result
        (λ found. AreArguments StepName.Stage words.now found.0 found.1.now)
        (λ e. Because e (AreNoArguments StepName.Stage words.now)) }
{
    let (name, words) = take_name(alloc, words)?;
    let (from, words) = take_stage(words)?;
    let (to, words) = take_next_stage(words)?;
    Ok((Step::Stage(Stage { name, from, to }), words))
}

pub fn read_regions(alloc: Global, words: &[Bytes]) -> Result<(Step, &[Bytes]), WordRefusal>
    ensures { MatchResult result
        (λ found. AreArguments StepName.Regions words.now found.0 found.1.now)
        (λ e. Because e (AreNoArguments StepName.Regions words.now)) }
{
    let (name, words) = take_name(alloc, words)?;
    let (generation, words) = take_generation(alloc, words)?;
    Ok((Step::Regions(Regions { name, generation }), words))
}

pub fn read_load(alloc: Global, words: &[Bytes]) -> Result<(Step, &[Bytes]), WordRefusal>
    ensures { MatchResult result
        (λ found. AreArguments StepName.Load words.now found.0 found.1.now)
        (λ e. Because e (AreNoArguments StepName.Load words.now)) }
{
    let (name, words) = take_name(alloc, words)?;
    let (path, words) = take_path(alloc, words)?;
    let (address, words) = take_address(alloc, words)?;
    let (generation, words) = take_generation(alloc, words)?;
    Ok((
        Step::Load(Load {
            name,
            path,
            address,
            generation,
        }),
        words,
    ))
}

pub fn read_mem(alloc: Global, words: &[Bytes]) -> Result<(Step, &[Bytes]), WordRefusal>
    ensures { MatchResult result
        (λ found. AreArguments StepName.Mem words.now found.0 found.1.now)
        (λ e. Because e (AreNoArguments StepName.Mem words.now)) }
{
    let (name, words) = take_name(alloc, words)?;
    let (address, words) = take_address(alloc, words)?;
    let (count, words) = take_number(alloc, words)?;
    let (generation, words) = take_generation(alloc, words)?;
    Ok((
        Step::Mem(Mem {
            name,
            address,
            count,
            generation,
        }),
        words,
    ))
}

pub fn read_feed(alloc: Global, words: &[Bytes]) -> Result<(Step, &[Bytes]), WordRefusal>
    ensures { MatchResult result
        (λ found. AreArguments StepName.Feed words.now found.0 found.1.now)
        (λ e. Because e (AreNoArguments StepName.Feed words.now)) }
{
    let (name, words) = take_name(alloc, words)?;
    let (region, words) = take_name(alloc, words)?;
    let (bytes, words) = take_bytes(alloc, words)?;
    let (generation, words) = take_generation(alloc, words)?;
    Ok((
        Step::Feed(Feed {
            name,
            region,
            bytes,
            generation,
        }),
        words,
    ))
}
