//! What steps give, read from words.
ghost use Rattle.std.specs.Prelude.{◌≡◌, ◌≢◌, ◌∷◌, [], List, ℕ, IsTrue, ◌↔◌, MatchOption};
ghost use Rattle.hv_data.specs.Reading.{ReadsWords};
ghost use Rattle.hv_data.specs.Written.{IsNumber, AreBytes, AreListedNames, AreChanges, IsAny};
ghost use Rattle.hv_listing.specs.Listing.{AreGuests, AreWindows};
ghost use Rattle.hv_answer.specs.Payload.{no_words, bytes_words, names_words, guests_words, windows_words, number_words, changes_words, generation_words, IsNumber32, IsBorn};
ghost use Rattle.hv_answer.specs.Reply.{given_words, IsAnswer};

use crate::refused::refusal_of;
use hv_data::{
    WordRefusal, behind_word, take_bytes, take_changes, take_names, take_number, take_number8,
};
use hv_kinds::{Generation, SignalChanges};
use hv_listing::{GuestList, WindowList, guests_word, windows_word};
use hv_name::StepName;
use hv_refusal::Refusal;
use hv_text::{Bytes, Strings};
use std::alloc::Global;

/// The one word that there is.
fn one_word(words: &[Bytes]) -> Option<&[u8]>
    ensures { MatchOption result
        ((word : List ℕ) → words.now ≢ word ∷ [])
        (λ word. words.now ≡ word.now ∷ []) }
{
    let (first, rest) = words.split_first()?;
    if !rest.is_empty() {
        return None;
    }
    Some(first.as_slice())
}

/// Whether a word is the only one.
pub fn is_alone(words: &[Bytes], word: &[u8]) -> bool
    ensures { IsTrue result ↔ (words.now ≡ word.now ∷ []) }
{
    match one_word(words) {
        Some(only) => only == word,
        None => false,
    }
}

/// The bytes of words.
pub fn bytes_alone(alloc: Global, words: &[Bytes]) -> Result<Bytes, WordRefusal>
    ensures { ReadsWords AreBytes bytes_words words.now result }
{
    let (given, rest) = take_bytes(alloc, words)?;
    if !rest.is_empty() {
        return Err(WordRefusal::BadWord);
    }
    Ok(given)
}

/// The listed names of words.
pub fn names_alone(alloc: Global, words: &[Bytes]) -> Result<Strings, WordRefusal>
    ensures { ReadsWords AreListedNames names_words words.now result }
{
    let (given, rest) = take_names(alloc, words)?;
    if !rest.is_empty() {
        return Err(WordRefusal::BadWord);
    }
    Ok(given)
}

/// The listed guests of words.
pub fn guests_alone(alloc: Global, words: &[Bytes]) -> Result<GuestList, WordRefusal>
    ensures { ReadsWords AreGuests guests_words words.now result }
{
    let Some(word) = one_word(words) else {
        return Err(WordRefusal::BadWord);
    };
    guests_word(alloc, word)
}

/// The listed windows of words.
fn windows_alone(alloc: Global, words: &[Bytes]) -> Result<WindowList, WordRefusal>
    ensures { ReadsWords AreWindows windows_words words.now result }
{
    let Some(word) = one_word(words) else {
        return Err(WordRefusal::BadWord);
    };
    windows_word(alloc, word)
}

/// The number of words.
pub fn number_alone(alloc: Global, words: &[Bytes]) -> Result<u64, WordRefusal>
    ensures { ReadsWords IsNumber number_words words.now result }
{
    let (given, rest) = take_number(alloc, words)?;
    if !rest.is_empty() {
        return Err(WordRefusal::BadWord);
    }
    Ok(given)
}

/// The number of at most 32 bits of words.
pub fn slice_alone(alloc: Global, words: &[Bytes]) -> Result<u32, WordRefusal>
    ensures { ReadsWords IsNumber32 number_words words.now result }
{
    let given = number_alone(alloc, words)?;
    if given > u32::MAX as u64 {
        return Err(WordRefusal::BadWord);
    }
    Ok(given as u32)
}

/// The signal changes of words.
pub fn changes_alone(words: &[Bytes]) -> Result<SignalChanges, WordRefusal>
    ensures { ReadsWords AreChanges changes_words words.now result }
{
    let (given, rest) = take_changes(words)?;
    if !rest.is_empty() {
        return Err(WordRefusal::BadWord);
    }
    Ok(given)
}

/// The slot and birth of words.
pub fn generation_alone(alloc: Global, words: &[Bytes]) -> Result<Generation, WordRefusal>
    ensures { ReadsWords IsBorn generation_words words.now result }
{
    let (slot, rest) = take_number8(alloc, words)?;
    let birth = number_alone(alloc, rest)?;
    Ok(Generation { slot, birth })
}

/// The answer of a step that gives nothing.
pub fn given_nothing(
    alloc: Global,
    name: StepName,
    words: &[Bytes],
) -> Result<Result<(), Refusal>, WordRefusal>
    ensures { ReadsWords (IsAnswer IsAny name) (given_words no_words) words.now result }
{
    if is_alone(words, b"ok") {
        return Ok(Ok(()));
    }
    let Some(why) = behind_word(words, b"refused") else {
        return Err(WordRefusal::BadWord);
    };
    Ok(Err(refusal_of(alloc, name, why)?))
}

/// The answer of a step that gives bytes.
pub fn given_bytes(
    alloc: Global,
    name: StepName,
    words: &[Bytes],
) -> Result<Result<Bytes, Refusal>, WordRefusal>
    ensures { ReadsWords (IsAnswer AreBytes name) (given_words bytes_words) words.now result }
{
    if let Some(given) = behind_word(words, b"ok") {
        return Ok(Ok(bytes_alone(alloc, given)?));
    }
    let Some(why) = behind_word(words, b"refused") else {
        return Err(WordRefusal::BadWord);
    };
    Ok(Err(refusal_of(alloc, name, why)?))
}

/// The answer of a step that gives names.
pub fn given_names(
    alloc: Global,
    name: StepName,
    words: &[Bytes],
) -> Result<Result<Strings, Refusal>, WordRefusal>
    ensures { ReadsWords (IsAnswer AreListedNames name) (given_words names_words) words.now result }
{
    if let Some(given) = behind_word(words, b"ok") {
        return Ok(Ok(names_alone(alloc, given)?));
    }
    let Some(why) = behind_word(words, b"refused") else {
        return Err(WordRefusal::BadWord);
    };
    Ok(Err(refusal_of(alloc, name, why)?))
}

/// The answer of a step that gives windows.
pub fn given_windows(
    alloc: Global,
    name: StepName,
    words: &[Bytes],
) -> Result<Result<WindowList, Refusal>, WordRefusal>
    ensures { ReadsWords (IsAnswer AreWindows name) (given_words windows_words) words.now result }
{
    if let Some(given) = behind_word(words, b"ok") {
        return Ok(Ok(windows_alone(alloc, given)?));
    }
    let Some(why) = behind_word(words, b"refused") else {
        return Err(WordRefusal::BadWord);
    };
    Ok(Err(refusal_of(alloc, name, why)?))
}

/// The answer of a step that gives a number.
pub fn given_number(
    alloc: Global,
    name: StepName,
    words: &[Bytes],
) -> Result<Result<u64, Refusal>, WordRefusal>
    ensures { ReadsWords (IsAnswer IsNumber name) (given_words number_words) words.now result }
{
    if let Some(given) = behind_word(words, b"ok") {
        return Ok(Ok(number_alone(alloc, given)?));
    }
    let Some(why) = behind_word(words, b"refused") else {
        return Err(WordRefusal::BadWord);
    };
    Ok(Err(refusal_of(alloc, name, why)?))
}

/// The answer of a step that gives a slice.
pub fn given_slice(
    alloc: Global,
    name: StepName,
    words: &[Bytes],
) -> Result<Result<u32, Refusal>, WordRefusal>
    ensures { ReadsWords (IsAnswer IsNumber32 name) (given_words number_words) words.now result }
{
    if let Some(given) = behind_word(words, b"ok") {
        return Ok(Ok(slice_alone(alloc, given)?));
    }
    let Some(why) = behind_word(words, b"refused") else {
        return Err(WordRefusal::BadWord);
    };
    Ok(Err(refusal_of(alloc, name, why)?))
}

/// The answer of a step that gives signal changes.
pub fn given_changes(
    alloc: Global,
    name: StepName,
    words: &[Bytes],
) -> Result<Result<SignalChanges, Refusal>, WordRefusal>
    ensures { ReadsWords (IsAnswer AreChanges name) (given_words changes_words) words.now result }
{
    if let Some(given) = behind_word(words, b"ok") {
        return Ok(Ok(changes_alone(given)?));
    }
    let Some(why) = behind_word(words, b"refused") else {
        return Err(WordRefusal::BadWord);
    };
    Ok(Err(refusal_of(alloc, name, why)?))
}

/// The answer of a step that gives a slot and a birth.
pub fn given_generation(
    alloc: Global,
    name: StepName,
    words: &[Bytes],
) -> Result<Result<Generation, Refusal>, WordRefusal>
    ensures { ReadsWords (IsAnswer IsBorn name) (given_words generation_words) words.now result }
{
    if let Some(given) = behind_word(words, b"ok") {
        return Ok(Ok(generation_alone(alloc, given)?));
    }
    let Some(why) = behind_word(words, b"refused") else {
        return Err(WordRefusal::BadWord);
    };
    Ok(Err(refusal_of(alloc, name, why)?))
}
