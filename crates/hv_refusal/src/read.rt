//! Refusals read from their words.
ghost use Rattle.std.specs.Prelude.{◌≡◌, ◌∷◌, [], MatchResult, IfSome};
ghost use Rattle.hv_data.specs.Data.{HaveNoSpace};
ghost use Rattle.hv_data.specs.Reading.{Because};
ghost use Rattle.hv_refusal.specs.declared.refusal.Refusal.{Refusal};
ghost use Rattle.hv_refusal.specs.Refusal.{IsRefusal, refusal_words};
ghost use Rattle.hv_refusal.specs.Reading.{AreRefusalWords, file_spelled, guest_spelled, bare_spelled};

use crate::arguments::{find_telling, read_arguments};
use crate::refusal::Refusal;
use hv_data::WordRefusal;
use hv_text::Bytes;
use std::alloc::Global;

/// The refusal of a line, a file or a script that a word alone is.
fn find_file(word: &[u8]) -> Option<Refusal>
    ensures spelled { result ≡ file_spelled word.now }
    ensures words { IfSome result (λ why. AreRefusalWords (word.now ∷ []) why) }
{
    if word == b"NoCommand".as_slice() {
        return Some(Refusal::NoCommand);
    }
    if word == b"NoEntry".as_slice() {
        return Some(Refusal::NoEntry);
    }
    if word == b"NotDir".as_slice() {
        return Some(Refusal::NotDir);
    }
    if word == b"IsDir".as_slice() {
        return Some(Refusal::IsDir);
    }
    if word == b"Exists".as_slice() {
        return Some(Refusal::Exists);
    }
    if word == b"NotEmpty".as_slice() {
        return Some(Refusal::NotEmpty);
    }
    if word == b"TooDeep".as_slice() {
        return Some(Refusal::TooDeep);
    }
    if word == b"TooLong".as_slice() {
        return Some(Refusal::TooLong);
    }
    None
}

/// The refusal of a guest's step that a word alone is.
fn find_guest(word: &[u8]) -> Option<Refusal>
    ensures spelled { result ≡ guest_spelled word.now }
    ensures words { IfSome result (λ why. AreRefusalWords (word.now ∷ []) why) }
{
    if word == b"NoSuchGuest".as_slice() {
        return Some(Refusal::NoSuchGuest);
    }
    if word == b"NoRegion".as_slice() {
        return Some(Refusal::NoRegion);
    }
    if word == b"NoGuest".as_slice() {
        return Some(Refusal::NoGuest);
    }
    if word == b"NameUsed".as_slice() {
        return Some(Refusal::NameUsed);
    }
    if word == b"NoSlot".as_slice() {
        return Some(Refusal::NoSlot);
    }
    if word == b"Live".as_slice() {
        return Some(Refusal::Live);
    }
    if word == b"NotLive".as_slice() {
        return Some(Refusal::NotLive);
    }
    if word == b"AliasTarget".as_slice() {
        return Some(Refusal::AliasTarget);
    }
    if word == b"NoEmulator".as_slice() {
        return Some(Refusal::NoEmulator);
    }
    if word == b"NoWindow".as_slice() {
        return Some(Refusal::NoWindow);
    }
    if word == b"NotMemory".as_slice() {
        return Some(Refusal::NotMemory);
    }
    if word == b"NotSerial".as_slice() {
        return Some(Refusal::NotSerial);
    }
    None
}

/// The refusal that a word alone is.
fn find_bare(word: &[u8]) -> Option<Refusal>
    ensures spelled { result ≡ bare_spelled word.now }
    ensures words { IfSome result (λ why. AreRefusalWords (word.now ∷ []) why) }
{
    match find_file(word) {
        Some(why) => Some(why),
        None => find_guest(word),
    }
}

/// The refusal of words.
pub fn read_refusal(alloc: Global, words: &[Bytes]) -> Result<Refusal, WordRefusal>
    // The words are those of what is read, and they are refused exactly where no refusal has them.
    ensures { MatchResult result
        (λ why. AreRefusalWords words.now why)
        (λ e. Because e ((why : Refusal) → AreRefusalWords words.now why → ⊥)) }
{
    let Some((first, rest)) = words.split_first() else {
        return Err(WordRefusal::BadWord);
    };
    if let Some(why) = find_bare(first.as_slice()) {
        if !rest.is_empty() {
            return Err(WordRefusal::BadWord);
        }
        return Ok(why);
    }
    let Some(name) = find_telling(first.as_slice()) else {
        return Err(WordRefusal::BadWord);
    };
    read_arguments(alloc, name, rest)
}

/// Two written refusals with the same words are one.
pub fn refusals_are_unambiguous()
    ensures { (one other : Refusal) → IsRefusal one → IsRefusal other
        → refusal_words one ≡ refusal_words other → one ≡ other }
{}

/// No word of a written refusal has a space.
pub fn refusals_have_no_space()
    ensures { (why : Refusal) → IsRefusal why → HaveNoSpace (refusal_words why) }
{}
