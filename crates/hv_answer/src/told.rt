//! The replies of harts and devices, read from words.
ghost use Rattle.std.specs.Prelude.{◌≡◌, ◌≢◌, ◌∷◌, [], Bool, MatchOption, codes};
ghost use Rattle.hv_data.specs.Reading.{ReadsWords};
ghost use Rattle.hv_data.specs.Text.{bit_text};
ghost use Rattle.hv_data.specs.Written.{AreChanges, IsState, IsAny};
ghost use Rattle.hv_answer.specs.Payload.{state_words, outcome_words, fetched_words, accessed_words, harts_words, moved_words, sampled_words, pins_text, woken_text};
ghost use Rattle.hv_answer.specs.Payload.{pinned_words, ticked_words, maybe_words, IsOutcome, IsFetched, IsAccessed, AreHarts, IsMoved, IsSampled, IsMaybe};
ghost use Rattle.hv_kinds.specs.declared.pins.Pins.{Pins};

use crate::given::{changes_alone, is_alone, number_alone};
use crate::reply::{Accessed, Fetched, Moved, Outcome, Pinned, Sampled};
use hv_data::{WordRefusal, behind_word, take_address, take_number8, take_state};
use hv_kinds::{Pins, SignalChanges, State};
use hv_text::Bytes;
use std::alloc::Global;

pub fn read_state(alloc: Global, words: &[Bytes]) -> Result<State, WordRefusal>
    ensures { ReadsWords IsState state_words words.now result }
{
    let (state, rest) = take_state(alloc, words)?;
    if !rest.is_empty() {
        return Err(WordRefusal::BadWord);
    }
    Ok(state)
}

pub fn read_tick(words: &[Bytes]) -> Result<Option<SignalChanges>, WordRefusal>
    ensures { ReadsWords (IsMaybe AreChanges) (maybe_words (codes "none") ticked_words) words.now result }
{
    if is_alone(words, b"none") {
        return Ok(None);
    }
    let Some(given) = behind_word(words, b"ok") else {
        return Err(WordRefusal::BadWord);
    };
    Ok(Some(changes_alone(given)?))
}

fn read_outcome(alloc: Global, words: &[Bytes]) -> Result<Outcome, WordRefusal>
    ensures { ReadsWords IsOutcome outcome_words words.now result }
{
    if is_alone(words, b"done") {
        return Ok(Outcome::Done);
    }
    if is_alone(words, b"wait") {
        return Ok(Outcome::Wait);
    }
    if is_alone(words, b"access") {
        return Ok(Outcome::Access);
    }
    let Some(cause) = behind_word(words, b"trap") else {
        return Err(WordRefusal::BadWord);
    };
    Ok(Outcome::Trap(number_alone(alloc, cause)?))
}

fn read_fetched(alloc: Global, words: &[Bytes]) -> Result<Fetched, WordRefusal>
    ensures { ReadsWords IsFetched fetched_words words.now result }
{
    let (word, rest) = take_address(alloc, words)?;
    if word > u32::MAX as u64 {
        return Err(WordRefusal::BadWord);
    }
    let outcome = read_outcome(alloc, rest)?;
    Ok(Fetched {
        word: word as u32,
        outcome,
    })
}

pub fn read_fetch(alloc: Global, words: &[Bytes]) -> Result<Option<Fetched>, WordRefusal>
    ensures { ReadsWords (IsMaybe IsFetched) (maybe_words (codes "noexec") fetched_words) words.now result }
{
    if is_alone(words, b"noexec") {
        return Ok(None);
    }
    Ok(Some(read_fetched(alloc, words)?))
}

fn read_accessed(alloc: Global, words: &[Bytes]) -> Result<Accessed, WordRefusal>
    ensures { ReadsWords IsAccessed accessed_words words.now result }
{
    let (value, rest) = take_address(alloc, words)?;
    let changes = changes_alone(rest)?;
    Ok(Accessed { value, changes })
}

pub fn read_access(alloc: Global, words: &[Bytes]) -> Result<Option<Accessed>, WordRefusal>
    ensures { ReadsWords (IsMaybe IsAccessed) (maybe_words (codes "denied") accessed_words) words.now result }
{
    if is_alone(words, b"denied") {
        return Ok(None);
    }
    Ok(Some(read_accessed(alloc, words)?))
}

fn read_harts(alloc: Global, words: &[Bytes]) -> Result<(u8, u8), WordRefusal>
    ensures { ReadsWords AreHarts harts_words words.now result }
{
    let (from, rest) = take_number8(alloc, words)?;
    let (to, rest) = take_number8(alloc, rest)?;
    if !rest.is_empty() {
        return Err(WordRefusal::BadWord);
    }
    Ok((from, to))
}

fn read_moved(alloc: Global, words: &[Bytes]) -> Result<Moved, WordRefusal>
    ensures { ReadsWords IsMoved moved_words words.now result }
{
    let Some(numbers) = behind_word(words, b"move") else {
        return Err(WordRefusal::BadWord);
    };
    let (vcpu, rest) = take_number8(alloc, numbers)?;
    let harts = read_harts(alloc, rest)?;
    Ok(Moved {
        vcpu,
        from: harts.0,
        to: harts.1,
    })
}

pub fn read_balance(alloc: Global, words: &[Bytes]) -> Result<Option<Moved>, WordRefusal>
    ensures { ReadsWords (IsMaybe IsMoved) (maybe_words (codes "none") moved_words) words.now result }
{
    if is_alone(words, b"none") {
        return Ok(None);
    }
    Ok(Some(read_moved(alloc, words)?))
}

fn find_bit(word: &[u8]) -> Option<bool>
    ensures { MatchOption result
        ((bit : Bool) → word.now ≢ bit_text bit)
        (λ bit. word.now ≡ bit_text bit) }
{
    if word == b"1".as_slice() {
        return Some(true);
    }
    if word == b"0".as_slice() {
        return Some(false);
    }
    None
}

fn read_sampled(words: &[Bytes]) -> Result<Sampled, WordRefusal>
    ensures { ReadsWords IsSampled sampled_words words.now result }
{
    let Some((level, rest)) = words.split_first() else {
        return Err(WordRefusal::BadWord);
    };
    let Some(level) = find_bit(level.as_slice()) else {
        return Err(WordRefusal::BadWord);
    };
    let changes = changes_alone(rest)?;
    Ok(Sampled { level, changes })
}

pub fn read_sample(words: &[Bytes]) -> Result<Option<Sampled>, WordRefusal>
    ensures { ReadsWords (IsMaybe IsSampled) (maybe_words (codes "gone") sampled_words) words.now result }
{
    if is_alone(words, b"gone") {
        return Ok(None);
    }
    Ok(Some(read_sampled(words)?))
}

/// The signal of a digit.
fn find_pin(digit: u8) -> Option<bool>
    ensures { MatchOption result
        ((bit : Bool) → digit ∷ [] ≢ bit_text bit)
        (λ bit. digit ∷ [] ≡ bit_text bit) }
{
    match digit {
        b'1' => Some(true),
        b'0' => Some(false),
        _ => None,
    }
}

fn find_pins(word: &[u8]) -> Option<Pins>
    ensures { MatchOption result
        ((pins : Pins) → word.now ≢ pins_text pins)
        (λ pins. word.now ≡ pins_text pins) }
{
    let [ext, soft, timer] = word else {
        return None;
    };
    let ext = find_pin(*ext)?;
    let soft = find_pin(*soft)?;
    let timer = find_pin(*timer)?;
    Some(Pins { ext, soft, timer })
}

fn find_woken(word: &[u8]) -> Option<bool>
    ensures { MatchOption result
        ((woke : Bool) → word.now ≢ woken_text woke)
        (λ woke. word.now ≡ woken_text woke) }
{
    if word == b"woke".as_slice() {
        return Some(true);
    }
    if word == b"kept".as_slice() {
        return Some(false);
    }
    None
}

fn read_pinned(words: &[Bytes]) -> Result<Pinned, WordRefusal>
    ensures { ReadsWords IsAny pinned_words words.now result }
{
    let [pins, woke] = words else {
        return Err(WordRefusal::BadWord);
    };
    let Some(pins) = find_pins(pins.as_slice()) else {
        return Err(WordRefusal::BadWord);
    };
    let Some(woke) = find_woken(woke.as_slice()) else {
        return Err(WordRefusal::BadWord);
    };
    Ok(Pinned { pins, woke })
}

pub fn read_pin(words: &[Bytes]) -> Result<Option<Pinned>, WordRefusal>
    ensures { ReadsWords (IsMaybe IsAny) (maybe_words (codes "gone") pinned_words) words.now result }
{
    if is_alone(words, b"gone") {
        return Ok(None);
    }
    Ok(Some(read_pinned(words)?))
}
