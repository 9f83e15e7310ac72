//! Strings and the bytes that they spell.
ghost use Rattle.std.specs.Prelude.{◌≡◌, ◌<◌, ◌≤◌, ◌+◌, length, IfSome, IfOk};
ghost use Rattle.std.specs.Str.Parse.{AllDigits};
ghost use Rattle.hv_dtlex.specs.Values.{escaped, digits_escape, escape, piece, string_len, string_bytes};

use crate::digits::front_digits;
use hv_text::digits_value;
use std::alloc::{AllocError, Global};

fn escaped(letter: u8) -> u8
    ensures { result ≡ escaped letter }
{
    match letter {
        b'a' => 7,
        b'b' => 8,
        b't' => 9,
        b'n' => 10,
        b'v' => 11,
        b'f' => 12,
        b'r' => 13,
        _ => letter,
    }
}

#[tactic(auto, unfolding(crate::specs::Values::digits_escape))]
fn digits_escape(before: usize, radix: u32, digits: &[u8]) -> Option<(u8, usize)>
    requires low { 2 ≤ radix }
    requires high { radix ≤ 16 }
    requires each { AllDigits radix digits.now }
    requires room { before ≤ 2 }
    requires few { length digits.now ≤ 3 }
    ensures value { result ≡ digits_escape before radix digits.now }
    ensures size { IfSome result (λ p. p.1 ≡ before + length digits.now) }
{
    if digits.is_empty() {
        return None;
    }
    let value = digits_value(digits, radix)?;
    if value < 256 {
        return Some((value as u8, before + digits.len()));
    }
    None
}

#[tactic(auto, unfolding(crate::specs::Values::escape))]
fn escape(text: &[u8]) -> Option<(u8, usize)>
    ensures value { result ≡ escape text.now }
    ensures within { IfSome result (λ p. p.1 ≤ length text.now + 1) }
    ensures some { IfSome result (λ p. 0 < p.1) }
{
    let (letter, rest) = text.split_first()?;
    if char::from(*letter).is_digit(8) {
        return digits_escape(1, 8, front_digits(text, 8, 3));
    }
    if *letter == b'x' {
        return digits_escape(2, 16, front_digits(rest, 16, 2));
    }
    Some((escaped(*letter), 2))
}

/// The byte that the first piece stands for, and how long the piece is.
#[tactic(auto, unfolding(crate::specs::Values::piece))]
fn piece(text: &[u8]) -> Option<(u8, usize)>
    ensures value { result ≡ piece text.now }
    ensures within { IfSome result (λ p. p.1 ≤ length text.now) }
    ensures some { IfSome result (λ p. 0 < p.1) }
{
    let (byte, rest) = text.split_first()?;
    if *byte == b'\\' {
        return escape(rest);
    }
    Some((*byte, 1))
}

/// How long a string is behind its first quote, where it has an end.
pub fn string_len(text: &[u8]) -> Option<usize>
    ensures len { result ≡ string_len text.now }
    ensures within { IfSome result (λ len. len ≤ length text.now) }
{
    let mut rest = text;
    while !rest.starts_with(b"\"") {
        let (_, size) = piece(rest)?;
        rest = rest.split_at(size).1;
    }
    Some(text.len() - rest.len() + 1)
}

/// The bytes that a string spells, of which `text` stands behind its first quote.
pub fn string_value(alloc: Global, text: &[u8]) -> Result<Vec<u8>, AllocError>
    ensures { IfOk result (λ bytes. bytes.items ≡ string_bytes text.now) }
{
    let mut bytes = Vec::with_capacity(alloc, text.len())?;
    let mut rest = text;
    while !rest.starts_with(b"\"") {
        let Some((byte, size)) = piece(rest) else {
            return Ok(bytes);
        };
        bytes.push(byte)?;
        rest = rest.split_at(size).1;
    }
    Ok(bytes)
}
