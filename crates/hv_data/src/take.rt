//! Data taken from the front of words.
ghost use Rattle.std.specs.Prelude.{List, ℕ, Option, MatchResult};
ghost use Rattle.std.specs.Fmt.{decimal};
ghost use Rattle.hv_text.specs.Path.{ArePathNames, path_text};
ghost use Rattle.hv_kinds.specs.declared.stage.Stage.{Stage};
ghost use Rattle.hv_kinds.specs.declared.address.AddressType.{AddressType};
ghost use Rattle.hv_kinds.specs.declared.access.Direction.{Direction};
ghost use Rattle.hv_kinds.specs.declared.access.AccessKind.{AccessKind};
ghost use Rattle.hv_kinds.specs.declared.changes.SignalChanges.{SignalChanges};
ghost use Rattle.hv_kinds.specs.declared.generation.Generation.{Generation};
ghost use Rattle.hv_kinds.specs.declared.state.State.{State};
ghost use Rattle.hv_kinds.specs.declared.state.StateName.{StateName};
ghost use Rattle.hv_data.specs.Text.{address_text, hex_text, names_text, name_text, generation_text, stage_text, next_stage_text};
ghost use Rattle.hv_data.specs.Text.{address_type_text, state_text, state_name_text, direction_text, access_kind_text, changes_text};
ghost use Rattle.hv_data.specs.Written.{IsNumber, IsNumber8, AreBytes, AreListedNames, IsWord, IsGeneration, IsState, AreChanges, IsAny};
ghost use Rattle.hv_data.specs.Reading.{Because, BeginWith};

use crate::parts::first_word;
use crate::refusal::WordRefusal;
use crate::spelled::{
    access_kind_word, address_type_word, direction_word, next_stage_word, stage_word,
    state_name_word,
};
use crate::word::{
    address_word, bytes_word, changes_word, generation_word, name_word, names_word, number_word,
    number8_word, path_word, state_word,
};
use hv_kinds::{
    AccessKind, AddressType, Direction, Generation, SignalChanges, Stage, State, StateName,
};
use hv_text::{Bytes, Path, Strings};
use std::alloc::Global;

/// The number of the first word, and the words behind it.
pub fn take_number(alloc: Global, words: &[Bytes]) -> Result<(u64, &[Bytes]), WordRefusal>
    ensures { MatchResult result
        (λ found. BeginWith IsNumber decimal words.now found.0 found.1.now)
        (λ e. Because e ((value : ℕ) (rest : List (List ℕ))
        → BeginWith IsNumber decimal words.now value rest → ⊥)) }
{
    let Some((word, rest)) = first_word(words) else {
        return Err(WordRefusal::BadWord);
    };
    Ok((number_word(alloc, word)?, rest))
}

/// The number of at most 8 bits of the first word, and the words behind it.
pub fn take_number8(alloc: Global, words: &[Bytes]) -> Result<(u8, &[Bytes]), WordRefusal>
    ensures { MatchResult result
        (λ found. BeginWith IsNumber8 decimal words.now found.0 found.1.now)
        (λ e. Because e ((value : ℕ) (rest : List (List ℕ))
        → BeginWith IsNumber8 decimal words.now value rest → ⊥)) }
{
    let Some((word, rest)) = first_word(words) else {
        return Err(WordRefusal::BadWord);
    };
    Ok((number8_word(alloc, word)?, rest))
}

/// The address, machine word or register's value of the first word, and the words behind it.
pub fn take_address(alloc: Global, words: &[Bytes]) -> Result<(u64, &[Bytes]), WordRefusal>
    ensures { MatchResult result
        (λ found. BeginWith IsNumber address_text words.now found.0 found.1.now)
        (λ e. Because e ((value : ℕ) (rest : List (List ℕ))
        → BeginWith IsNumber address_text words.now value rest → ⊥)) }
{
    let Some((word, rest)) = first_word(words) else {
        return Err(WordRefusal::BadWord);
    };
    Ok((address_word(alloc, word)?, rest))
}

/// The bytes of the first word, and the words behind it.
pub fn take_bytes(alloc: Global, words: &[Bytes]) -> Result<(Bytes, &[Bytes]), WordRefusal>
    ensures { MatchResult result
        (λ found. BeginWith AreBytes hex_text words.now found.0 found.1.now)
        (λ e. Because e ((value : List ℕ) (rest : List (List ℕ))
        → BeginWith AreBytes hex_text words.now value rest → ⊥)) }
{
    let Some((word, rest)) = first_word(words) else {
        return Err(WordRefusal::BadWord);
    };
    Ok((bytes_word(alloc, word)?, rest))
}

/// The names of a folder's entries of the first word, and the words behind it.
pub fn take_names(alloc: Global, words: &[Bytes]) -> Result<(Strings, &[Bytes]), WordRefusal>
    ensures { MatchResult result
        (λ found. BeginWith AreListedNames names_text words.now found.0 found.1.now)
        (λ e. Because e ((value : List (List ℕ)) (rest : List (List ℕ))
        → BeginWith AreListedNames names_text words.now value rest → ⊥)) }
{
    let Some((word, rest)) = first_word(words) else {
        return Err(WordRefusal::BadWord);
    };
    Ok((names_word(alloc, word)?, rest))
}

/// The guest's or region's name of the first word, and the words behind it.
pub fn take_name(alloc: Global, words: &[Bytes]) -> Result<(Bytes, &[Bytes]), WordRefusal>
    ensures { MatchResult result
        (λ found. BeginWith IsWord name_text words.now found.0 found.1.now)
        (λ e. Because e ((value : List ℕ) (rest : List (List ℕ))
        → BeginWith IsWord name_text words.now value rest → ⊥)) }
{
    let Some((word, rest)) = first_word(words) else {
        return Err(WordRefusal::BadWord);
    };
    Ok((name_word(alloc, word)?, rest))
}

/// The path of the first word, and the words behind it.
pub fn take_path(alloc: Global, words: &[Bytes]) -> Result<(Path, &[Bytes]), WordRefusal>
    ensures { MatchResult result
        (λ found. BeginWith ArePathNames path_text words.now found.0 found.1.now)
        (λ e. Because e ((value : List (List ℕ)) (rest : List (List ℕ))
        → BeginWith ArePathNames path_text words.now value rest → ⊥)) }
{
    let Some((word, rest)) = first_word(words) else {
        return Err(WordRefusal::BadWord);
    };
    Ok((path_word(alloc, word)?, rest))
}

/// The generation, or that there is none of the first word, and the words behind it.
pub fn take_generation(
    alloc: Global,
    words: &[Bytes],
) -> Result<(Option<Generation>, &[Bytes]), WordRefusal>
    ensures { MatchResult result
        (λ found. BeginWith IsGeneration generation_text words.now found.0 found.1.now)
        (λ e. Because e ((value : Option Generation) (rest : List (List ℕ))
        → BeginWith IsGeneration generation_text words.now value rest → ⊥)) }
{
    let Some((word, rest)) = first_word(words) else {
        return Err(WordRefusal::BadWord);
    };
    Ok((generation_word(alloc, word)?, rest))
}

/// The state of the first word, and the words behind it.
pub fn take_state(alloc: Global, words: &[Bytes]) -> Result<(State, &[Bytes]), WordRefusal>
    ensures { MatchResult result
        (λ found. BeginWith IsState state_text words.now found.0 found.1.now)
        (λ e. Because e ((value : State) (rest : List (List ℕ))
        → BeginWith IsState state_text words.now value rest → ⊥)) }
{
    let Some((word, rest)) = first_word(words) else {
        return Err(WordRefusal::BadWord);
    };
    Ok((state_word(alloc, word)?, rest))
}

/// The signal changes of the first word, and the words behind it.
pub fn take_changes(words: &[Bytes]) -> Result<(SignalChanges, &[Bytes]), WordRefusal>
    ensures { MatchResult result
        (λ found. BeginWith AreChanges changes_text words.now found.0 found.1.now)
        (λ e. Because e ((value : SignalChanges) (rest : List (List ℕ))
        → BeginWith AreChanges changes_text words.now value rest → ⊥)) }
{
    let Some((word, rest)) = first_word(words) else {
        return Err(WordRefusal::BadWord);
    };
    Ok((changes_word(word)?, rest))
}

/// The stage of the first word, and the words behind it.
pub fn take_stage(words: &[Bytes]) -> Result<(Stage, &[Bytes]), WordRefusal>
    ensures { MatchResult result
        (λ found. BeginWith IsAny stage_text words.now found.0 found.1.now)
        (λ e. Because e ((value : Stage) (rest : List (List ℕ))
        → BeginWith IsAny stage_text words.now value rest → ⊥)) }
{
    let Some((word, rest)) = first_word(words) else {
        return Err(WordRefusal::BadWord);
    };
    match stage_word(word) {
        Some(value) => Ok((value, rest)),
        None => Err(WordRefusal::BadWord),
    }
}

/// The stage that follows, none for `Free` of the first word, and the words behind it.
pub fn take_next_stage(words: &[Bytes]) -> Result<(Option<Stage>, &[Bytes]), WordRefusal>
    ensures { MatchResult result
        (λ found. BeginWith IsAny next_stage_text words.now found.0 found.1.now)
        (λ e. Because e ((value : Option Stage) (rest : List (List ℕ))
        → BeginWith IsAny next_stage_text words.now value rest → ⊥)) }
{
    let Some((word, rest)) = first_word(words) else {
        return Err(WordRefusal::BadWord);
    };
    match next_stage_word(word) {
        Some(value) => Ok((value, rest)),
        None => Err(WordRefusal::BadWord),
    }
}

/// The type of addresses of the first word, and the words behind it.
pub fn take_address_type(words: &[Bytes]) -> Result<(AddressType, &[Bytes]), WordRefusal>
    ensures { MatchResult result
        (λ found. BeginWith IsAny address_type_text words.now found.0 found.1.now)
        (λ e. Because e ((value : AddressType) (rest : List (List ℕ))
        → BeginWith IsAny address_type_text words.now value rest → ⊥)) }
{
    let Some((word, rest)) = first_word(words) else {
        return Err(WordRefusal::BadWord);
    };
    match address_type_word(word) {
        Some(value) => Ok((value, rest)),
        None => Err(WordRefusal::BadWord),
    }
}

/// The state's name of the first word, and the words behind it.
pub fn take_state_name(words: &[Bytes]) -> Result<(StateName, &[Bytes]), WordRefusal>
    ensures { MatchResult result
        (λ found. BeginWith IsAny state_name_text words.now found.0 found.1.now)
        (λ e. Because e ((value : StateName) (rest : List (List ℕ))
        → BeginWith IsAny state_name_text words.now value rest → ⊥)) }
{
    let Some((word, rest)) = first_word(words) else {
        return Err(WordRefusal::BadWord);
    };
    match state_name_word(word) {
        Some(value) => Ok((value, rest)),
        None => Err(WordRefusal::BadWord),
    }
}

/// The direction of an access of the first word, and the words behind it.
pub fn take_direction(words: &[Bytes]) -> Result<(Direction, &[Bytes]), WordRefusal>
    ensures { MatchResult result
        (λ found. BeginWith IsAny direction_text words.now found.0 found.1.now)
        (λ e. Because e ((value : Direction) (rest : List (List ℕ))
        → BeginWith IsAny direction_text words.now value rest → ⊥)) }
{
    let Some((word, rest)) = first_word(words) else {
        return Err(WordRefusal::BadWord);
    };
    match direction_word(word) {
        Some(value) => Ok((value, rest)),
        None => Err(WordRefusal::BadWord),
    }
}

/// The kind of an access of the first word, and the words behind it.
pub fn take_access_kind(words: &[Bytes]) -> Result<(AccessKind, &[Bytes]), WordRefusal>
    ensures { MatchResult result
        (λ found. BeginWith IsAny access_kind_text words.now found.0 found.1.now)
        (λ e. Because e ((value : AccessKind) (rest : List (List ℕ))
        → BeginWith IsAny access_kind_text words.now value rest → ⊥)) }
{
    let Some((word, rest)) = first_word(words) else {
        return Err(WordRefusal::BadWord);
    };
    match access_kind_word(word) {
        Some(value) => Ok((value, rest)),
        None => Err(WordRefusal::BadWord),
    }
}
