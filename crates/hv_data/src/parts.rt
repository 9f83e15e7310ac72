//! Texts parted at a byte, and words taken from the front.
ghost use Rattle.std.specs.Prelude.{◌≡◌, ◌≢◌, ◌∷◌, [], List, ℕ, IfOk, MatchOption};
ghost use Rattle.hv_data.specs.Reading.{parts_at};

use hv_text::{Bytes, word_at};
use std::alloc::{AllocError, Global};

/// The parts of a text at a byte, of which there is at least one.
pub fn split_at_byte(alloc: Global, text: &[u8], byte: u8) -> Result<Vec<Bytes>, AllocError>
    ensures { IfOk result (λ parts. parts.items ≡ parts_at byte text.now) }
{
    let mut parts = Vec::new(alloc);
    let mut rest = text;
    while let Some((part, behind)) = word_at(rest, byte) {
        parts.push(Bytes::from_vec(Vec::from_slice(alloc, part)?))?;
        rest = behind;
    }
    parts.push(Bytes::from_vec(Vec::from_slice(alloc, rest)?))?;
    Ok(parts)
}

/// The first word, and those behind it.
pub fn first_word(words: &[Bytes]) -> Option<(&[u8], &[Bytes])>
    ensures { MatchOption result
        (words.now ≡ [])
        (λ found. words.now ≡ found.0.now ∷ found.1.now) }
{
    let (first, rest) = words.split_first()?;
    Some((first.as_slice(), rest))
}

/// The words behind a first word.
pub fn behind_word<'a>(words: &'a [Bytes], word: &[u8]) -> Option<&'a [Bytes]>
    ensures { MatchOption result
        ((rest : List (List ℕ)) → words.now ≢ word.now ∷ rest)
        (λ rest. words.now ≡ word.now ∷ rest.now) }
{
    let (first, rest) = words.split_first()?;
    if first.as_slice() != word {
        return None;
    }
    Some(rest)
}
