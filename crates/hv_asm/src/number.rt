//! Numbers and registers of a line.
ghost use Rattle.std.specs.Prelude.{◌≡◌, ◌≢◌, ℕ, ◌<◌, ◌^◌, IfSome, MatchOption};
ghost use Rattle.hv_text.specs.Number.{number_of};
ghost use Rattle.hv_asm.specs.Operand.{within_word, number_value, register_text};

use hv_text::{read_number, strip_front};

fn word_number(text: &[u8]) -> Option<u64>
    ensures value { result ≡ within_word (number_of text.now) }
    ensures fits { IfSome result (λ n. n < 2 ^ 32) }
{
    match read_number(text) {
        Ok(number) if number < 0x1_0000_0000 => Some(number),
        _ => None,
    }
}

/// The value of a number: decimal, perhaps with a `-`, or hexadecimal behind `0x`.
pub(crate) fn read_value(text: &[u8]) -> Option<i64>
    ensures { result ≡ number_value text.now }
{
    if text.starts_with(b"-0x") {
        return None;
    }
    match strip_front(text, b"-") {
        Some(digits) => match word_number(digits) {
            Some(number) => Some(-(number as i64)),
            None => None,
        },
        None => match word_number(text) {
            Some(number) => Some(number as i64),
            None => None,
        },
    }
}

/// The number of the register with a name: decimal digits with no zero in front.
pub(crate) fn read_register(text: &[u8]) -> Option<u8>
    ensures { MatchOption result
        ((number : ℕ) → number < 32 → text.now ≢ register_text number)
        (λ number. (number < 32) × (text.now ≡ register_text number)) }
{
    let digits = strip_front(text, b"x")?;
    let number = word_number(digits)?;
    if number >= 32 {
        return None;
    }
    if digits.len() > 1 && digits[0] == b'0' {
        return None;
    }
    Some(number as u8)
}
