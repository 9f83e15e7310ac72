//! Words read: numbers, addresses, bytes, names, paths, generations, states and signal changes.
ghost use Rattle.std.specs.Prelude.{◌≡◌, ◌≢◌, ◌<◌, ◌^◌, ◌++◌, [], ◌∷◌, List, ℕ, IsTrue, ◌↔◌, MatchOption, MatchResult};
ghost use Rattle.std.specs.Char.{digit_char};
ghost use Rattle.std.specs.Fmt.{decimal};
ghost use Rattle.hv_text.specs.Number.{padded_hex};
ghost use Rattle.hv_text.specs.Path.{ArePathNames, path_text};
ghost use Rattle.hv_data.specs.Text.{address_text, hex_text, names_text, name_text, generation_text, state_text, changes_text};
ghost use Rattle.hv_data.specs.Written.{IsNumber, IsNumber8, AreBytes, IsListedName, AreListedNames, IsShown, IsWord, IsGeneration, IsState, AreChanges};
ghost use Rattle.hv_data.specs.Reading.{Because, Reads};

use crate::parts::split_at_byte;
use crate::push::push_address;
use crate::refusal::WordRefusal;
use hv_kinds::{Generation, SignalChanges, State};
use hv_text::{
    Bytes, Path, PathRefusal, Strings, is_name, read_number, strip_end, strip_front, word_at,
};
use std::alloc::Global;

/// The number of a word.
pub fn number_word(alloc: Global, word: &[u8]) -> Result<u64, WordRefusal>
    ensures { Reads IsNumber decimal word.now result }
{
    let Ok(number) = read_number(word) else {
        return Err(WordRefusal::BadWord);
    };
    let text = number.to_string(alloc)?;
    if text.as_bytes() != word {
        return Err(WordRefusal::BadWord);
    }
    Ok(number)
}

/// The number of a word, of at most 8 bits.
pub fn number8_word(alloc: Global, word: &[u8]) -> Result<u8, WordRefusal>
    ensures { Reads IsNumber8 decimal word.now result }
{
    let number = number_word(alloc, word)?;
    if number > 255 {
        return Err(WordRefusal::BadWord);
    }
    Ok(number as u8)
}

/// The address, machine word or register's value of a word.
pub fn address_word(alloc: Global, word: &[u8]) -> Result<u64, WordRefusal>
    ensures { Reads IsNumber address_text word.now result }
{
    let Ok(number) = read_number(word) else {
        return Err(WordRefusal::BadWord);
    };
    let mut text = Bytes::from_vec(Vec::new(alloc));
    push_address(alloc, &mut text, number)?;
    if text.as_slice() != word {
        return Err(WordRefusal::BadWord);
    }
    Ok(number)
}

/// The value of a lower-case hexadecimal digit.
fn digit_of(digit: u8) -> Option<u8>
    ensures { MatchOption result
        ((d : ℕ) → d < 16 → digit ≢ digit_char d)
        (λ d. (d < 16) × (digit ≡ digit_char d)) }
{
    match digit {
        b'0'..=b'9' => Some(digit - b'0'),
        b'a'..=b'f' => Some(digit - b'a' + 10),
        _ => None,
    }
}

/// The byte of two lower-case digits, and what stands behind them.
fn next_pair(text: &[u8]) -> Option<(u8, &[u8])>
    ensures { MatchOption result
        ((b : ℕ) (rest : List ℕ) → b < 2 ^ 8 → text.now ≢ padded_hex b 2 ++ rest)
        (λ found. (found.0 < 2 ^ 8) × (text.now ≡ padded_hex found.0 2 ++ found.1.now)) }
{
    let (high, rest) = text.split_first()?;
    let (low, behind) = rest.split_first()?;
    let high = digit_of(*high)?;
    let low = digit_of(*low)?;
    Some((high * 16 + low, behind))
}

/// The bytes of a word.
pub fn bytes_word(alloc: Global, word: &[u8]) -> Result<Bytes, WordRefusal>
    ensures { Reads AreBytes hex_text word.now result }
{
    let mut bytes = Vec::new(alloc);
    if word == b"-".as_slice() {
        return Ok(Bytes::from_vec(bytes));
    }
    let mut rest = word;
    while let Some((byte, behind)) = next_pair(rest) {
        bytes.push(byte)?;
        rest = behind;
    }
    if !rest.is_empty() {
        return Err(WordRefusal::BadWord);
    }
    if bytes.is_empty() {
        return Err(WordRefusal::BadWord);
    }
    Ok(Bytes::from_vec(bytes))
}

fn is_listed_name(entry: &[u8]) -> bool
    ensures { IsTrue result ↔ IsListedName entry.now }
{
    match strip_end(entry, b"/") {
        Some(folder) => is_name(folder),
        None => is_name(entry),
    }
}

fn are_listed_names(entries: &[Bytes]) -> bool
    ensures { IsTrue result ↔ AreListedNames entries.now }
{
    for entry in entries {
        if !is_listed_name(entry.as_slice()) {
            return false;
        }
    }
    true
}

/// The listed names of a word.
pub fn names_word(alloc: Global, word: &[u8]) -> Result<Strings, WordRefusal>
    ensures { Reads AreListedNames names_text word.now result }
{
    if word == b".".as_slice() {
        return Ok(Strings::new(alloc)?);
    }
    let names = split_at_byte(alloc, word, b',')?;
    if !are_listed_names(&names) {
        return Err(WordRefusal::BadWord);
    }
    Ok(Strings::from_vec(names))
}

fn is_word(word: &[u8]) -> bool
    ensures { IsTrue result ↔ IsWord word.now }
{
    if word.is_empty() {
        return false;
    }
    for byte in word {
        if !matches!(*byte, 33..=126) {
            return false;
        }
    }
    true
}

/// The guest's or region's name of a word.
pub fn name_word(alloc: Global, word: &[u8]) -> Result<Bytes, WordRefusal>
    ensures { Reads IsWord name_text word.now result }
{
    if !is_word(word) {
        return Err(WordRefusal::BadWord);
    }
    Ok(Bytes::from_vec(Vec::from_slice(alloc, word)?))
}

/// The path of a word.
pub fn path_word(alloc: Global, word: &[u8]) -> Result<Path, WordRefusal>
    ensures { Reads ArePathNames path_text word.now result }
{
    match Path::read(alloc, word) {
        Ok(path) => Ok(path),
        Err(PathRefusal::NotAPath) => Err(WordRefusal::BadWord),
        Err(PathRefusal::Memory(refused)) => Err(WordRefusal::Memory(refused)),
    }
}

/// The generation of a word, or that there is none.
pub fn generation_word(alloc: Global, word: &[u8]) -> Result<Option<Generation>, WordRefusal>
    ensures { Reads IsGeneration generation_text word.now result }
{
    if word == b"@-".as_slice() {
        return Ok(None);
    }
    let Some(numbers) = strip_front(word, b"@") else {
        return Err(WordRefusal::BadWord);
    };
    let Some((slot, birth)) = word_at(numbers, b'.') else {
        return Err(WordRefusal::BadWord);
    };
    let slot = number8_word(alloc, slot)?;
    let birth = number_word(alloc, birth)?;
    Ok(Some(Generation { slot, birth }))
}

/// The state of a word.
pub fn state_word(alloc: Global, word: &[u8]) -> Result<State, WordRefusal>
    ensures { Reads IsState state_text word.now result }
{
    if word == b"Unknown".as_slice() {
        return Ok(State::Unknown);
    }
    if word == b"Reset".as_slice() {
        return Ok(State::Reset);
    }
    if word == b"Ready".as_slice() {
        return Ok(State::Ready);
    }
    if word == b"Paused".as_slice() {
        return Ok(State::Paused(false));
    }
    if word == b"Paused/wfi".as_slice() {
        return Ok(State::Paused(true));
    }
    if word == b"Halted".as_slice() {
        return Ok(State::Halted);
    }
    let Some(hart) = strip_front(word, b"Running") else {
        return Err(WordRefusal::BadWord);
    };
    Ok(State::Running(number8_word(alloc, hart)?))
}

/// The pins of one hexadecimal digit.
fn pins_of(digits: &[u8]) -> Option<u8>
    ensures { MatchOption result
        ((p : ℕ) → p < 16 → digits.now ≢ digit_char p ∷ [])
        (λ p. (p < 16) × (digits.now ≡ digit_char p ∷ [])) }
{
    let (digit, rest) = digits.split_first()?;
    if !rest.is_empty() {
        return None;
    }
    digit_of(*digit)
}

/// The signal changes of a word whose front tells the line's.
fn changes_behind(line: bool, digits: &[u8]) -> Result<SignalChanges, WordRefusal>
    ensures { MatchResult result
        (λ c. (c.line ≡ line) × (c.pins < 16) × (digits.now ≡ digit_char c.pins ∷ []))
        (λ e. Because e ((p : ℕ) → p < 16 → digits.now ≢ digit_char p ∷ [])) }
{
    match pins_of(digits) {
        Some(pins) => Ok(SignalChanges { line, pins }),
        None => Err(WordRefusal::BadWord),
    }
}

/// The signal changes of a word.
pub fn changes_word(word: &[u8]) -> Result<SignalChanges, WordRefusal>
    ensures { Reads AreChanges changes_text word.now result }
{
    if let Some(digits) = strip_front(word, b"m0.") {
        return changes_behind(false, digits);
    }
    if let Some(digits) = strip_front(word, b"m1.") {
        return changes_behind(true, digits);
    }
    Err(WordRefusal::BadWord)
}
