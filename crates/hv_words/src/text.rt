//! Texts with escapes.
ghost use Rattle.std.specs.Prelude.{MatchOption, MatchResult};
ghost use Rattle.hv_words.specs.Spelled.{BeginsWithDigitPair, HasNoDigitPair, BeginsWithByte, HasNoByte};
ghost use Rattle.hv_words.specs.Commands.{Fits, SomeText, TextGiven};
ghost use Rattle.hv_words.specs.Arguments.{IsRefusedAt};

use crate::refusal::WordsRefusal;
use hv_text::Bytes;
use std::alloc::Global;

/// The byte that two hexadecimal digits spell, and what stands behind them.
fn digits_byte(text: &[u8]) -> Option<(u8, &[u8])>
    ensures { MatchOption result
        (HasNoDigitPair text.now)
        (λ found. BeginsWithDigitPair text.now found.0 found.1.now) }
{
    let (high, rest) = text.split_first()?;
    let (low, behind) = rest.split_first()?;
    let high = char::from(*high).to_digit(16)?;
    let low = char::from(*low).to_digit(16)?;
    Some(((high * 16 + low) as u8, behind))
}

/// The byte that a front of a text spells, and what stands behind it.
fn next_byte(text: &[u8]) -> Option<(u8, &[u8])>
    ensures { MatchOption result
        (HasNoByte text.now)
        (λ found. BeginsWithByte text.now found.0 found.1.now) }
{
    let (first, rest) = text.split_first()?;
    if *first != b'\\' {
        return Some((*first, rest));
    }
    let (kind, behind) = rest.split_first()?;
    match *kind {
        b'\\' => Some((b'\\', behind)),
        b'n' => Some((b'\n', behind)),
        b's' => Some((b' ', behind)),
        b'x' => digits_byte(behind),
        _ => None,
    }
}

/// The bytes that the word of a number spells.
pub fn read_text(alloc: Global, word: &[u8], at: usize) -> Result<Bytes, WordsRefusal>
    ensures { MatchResult result
        (λ bytes. Fits SomeText word.now (TextGiven bytes))
        (λ refusal. IsRefusedAt SomeText word.now at refusal) }
{
    let mut bytes = Vec::new(alloc);
    let mut rest = word;
    while let Some((byte, behind)) = next_byte(rest) {
        bytes.push(byte)?;
        rest = behind;
    }
    if !rest.is_empty() {
        return Err(WordsRefusal::BadWords(at));
    }
    if bytes.is_empty() {
        return Err(WordsRefusal::BadWords(at));
    }
    Ok(Bytes::from_vec(bytes))
}
