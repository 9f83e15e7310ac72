//! Steps of VCPUs, which are made by number or by guest.
ghost use Rattle.std.specs.Prelude.{List, ℕ, Option, MatchBool, MatchResult};
ghost use Rattle.hv_data.specs.Reading.{Because};
ghost use Rattle.hv_step.specs.declared.step.ByGuest.{ByGuest};
ghost use Rattle.hv_step.specs.Words.{GoesOn, Ends};
ghost use Rattle.hv_step.specs.Reading.{AreGuest, AreByGuest, AreArguments, AreNoArguments};

use crate::step::{ByGuest, Step, Vadd};
use hv_data::{WordRefusal, first_word, take_generation, take_name, take_number, take_number8};
use hv_name::StepName;
use hv_text::{Bytes, strip_front};
use std::alloc::Global;

/// Whether a guest follows: the second word has the sign of a generation.
fn goes_on(words: &[Bytes]) -> bool
    ensures { MatchBool result (GoesOn words.now) (Ends words.now) }
{
    let Some((_, rest)) = first_word(words) else {
        return false;
    };
    let Some((second, _)) = first_word(rest) else {
        return false;
    };
    match strip_front(second, b"@") {
        Some(_) => true,
        None => false,
    }
}

/// The guest by which a step is made, if there is one.
fn take_guest(alloc: Global, words: &[Bytes]) -> Result<(Option<ByGuest>, &[Bytes]), WordRefusal>
    ensures { MatchResult result
        (λ found. AreGuest words.now found.0 found.1.now)
        (λ e. Because e ((guest : Option ByGuest) (rest : List (List ℕ))
        → AreGuest words.now guest rest → ⊥)) }
{
    if !goes_on(words) {
        return Ok((None, words));
    }
    let (name, words) = take_name(alloc, words)?;
    let (generation, words) = take_generation(alloc, words)?;
    Ok((Some(ByGuest { name, generation }), words))
}

/// A VCPU's number, and the guest, if there is one.
pub fn take_vcpu(
    alloc: Global,
    words: &[Bytes],
) -> Result<(u8, Option<ByGuest>, &[Bytes]), WordRefusal>
    ensures { MatchResult result
        (λ found. AreByGuest words.now found.0 found.1 found.2.now)
        (λ e. Because e ((vcpu : ℕ) (guest : Option ByGuest) (rest : List (List ℕ))
        → AreByGuest words.now vcpu guest rest → ⊥)) }
{
    let (vcpu, words) = take_number8(alloc, words)?;
    let (guest, words) = take_guest(alloc, words)?;
    Ok((vcpu, guest, words))
}

pub fn read_vadd(alloc: Global, words: &[Bytes]) -> Result<(Step, &[Bytes]), WordRefusal>
    ensures { MatchResult result
        (λ found. AreArguments StepName.Vadd words.now found.0 found.1.now)
        (λ e. Because e (AreNoArguments StepName.Vadd words.now)) }
{
    let (vcpu, words) = take_number8(alloc, words)?;
    let (birth, words) = take_number(alloc, words)?;
    Ok((Step::Vadd(Vadd { vcpu, birth }), words))
}
