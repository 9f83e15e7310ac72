//! Data of several words taken from the front.
ghost use Rattle.std.specs.Prelude.{[], ◌∷◌, ℕ, List, Option, Some, MatchResult};
ghost use Rattle.hv_kinds.specs.declared.stage.Stage.{Stage};
ghost use Rattle.hv_kinds.specs.declared.generation.Generation.{Generation};
ghost use Rattle.hv_data.specs.Data.{Name, Born, At, HaveData};
ghost use Rattle.hv_data.specs.Reading.{Because};

use hv_data::{WordRefusal, take_generation, take_name, take_stage};
use hv_kinds::{Generation, Stage};
use hv_text::Bytes;
use std::alloc::Global;

/// A generation that there is.
pub fn take_born(alloc: Global, words: &[Bytes]) -> Result<(Generation, &[Bytes]), WordRefusal>
    ensures { MatchResult result
        (λ found. HaveData words.now (Born (Some found.0) ∷ []) found.1.now)
        (λ e. Because e ((g : Generation) (rest : List (List ℕ))
        → HaveData words.now (Born (Some g) ∷ []) rest → ⊥)) }
{
    let (generation, rest) = take_generation(alloc, words)?;
    match generation {
        Some(born) => Ok((born, rest)),
        None => Err(WordRefusal::BadWord),
    }
}

/// A guest's name, a region's, and the generation.
pub fn take_region(
    alloc: Global,
    words: &[Bytes],
) -> Result<(Bytes, Bytes, Option<Generation>, &[Bytes]), WordRefusal>
    ensures { MatchResult result
        (λ found. HaveData words.now
        (Name found.0 ∷ Name found.1 ∷ Born found.2 ∷ []) found.3.now)
        (λ e. Because e ((n r : List ℕ) (g : Option Generation) (rest : List (List ℕ))
        → HaveData words.now (Name n ∷ Name r ∷ Born g ∷ []) rest → ⊥)) }
{
    let (name, words) = take_name(alloc, words)?;
    let (region, words) = take_name(alloc, words)?;
    let (generation, words) = take_generation(alloc, words)?;
    Ok((name, region, generation, words))
}

/// A guest's name, a region's, the stage, and the generation.
pub fn take_staged(
    alloc: Global,
    words: &[Bytes],
) -> Result<(Bytes, Bytes, Stage, Option<Generation>, &[Bytes]), WordRefusal>
    ensures { MatchResult result
        (λ found. HaveData words.now
        (Name found.0 ∷ Name found.1 ∷ At found.2 ∷ Born found.3 ∷ []) found.4.now)
        (λ e. Because e ((n r : List ℕ) (s : Stage) (g : Option Generation) (rest : List (List ℕ))
        → HaveData words.now (Name n ∷ Name r ∷ At s ∷ Born g ∷ []) rest → ⊥)) }
{
    let (name, words) = take_name(alloc, words)?;
    let (region, words) = take_name(alloc, words)?;
    let (stage, words) = take_stage(words)?;
    let (generation, words) = take_generation(alloc, words)?;
    Ok((name, region, stage, generation, words))
}
