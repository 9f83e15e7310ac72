//! Numbers as text.
ghost use Rattle.std.specs.Prelude.{◌≡◌, ◌^◌, ◌<◌, ◌≤◌, length, IsSome};
ghost use Rattle.std.specs.Option.{SomeIff};
ghost use Rattle.std.specs.Str.Parse.{AllDigits, digits_value};
ghost use Rattle.hv_dtlex.specs.Values.{front_digits, cell_of, value_of_number};

use hv_text::{digits_len, digits_value};

/// The digits of the radix in front, at most so many.
pub fn front_digits(text: &[u8], radix: u32, most: usize) -> &[u8]
    requires low { 2 ≤ radix }
    requires high { radix ≤ 16 }
    ensures front { result.now ≡ front_digits radix most text.now }
    ensures each { AllDigits radix result.now }
    ensures within { length result.now ≤ length text.now }
    ensures few { length result.now ≤ most }
{
    let front = text.split_at(most.min(text.len())).0;
    front.split_at(digits_len(front, radix)).0
}

/// The value of digits, unless it passes 32 bits.
fn cell_value(digits: &[u8], radix: u32) -> Option<u32>
    requires low { 2 ≤ radix }
    requires high { radix ≤ 16 }
    requires each { AllDigits radix digits.now }
    ensures { SomeIff result (digits_value radix digits.now < 2 ^ 32) (digits_value radix digits.now) }
{
    u32::try_from(digits_value(digits, radix)?).ok()
}

/// The value of one or more digits of the radix, unless it passes 32 bits or another byte stands there.
#[tactic(auto, unfolding(crate::specs::Values::cell_of))]
pub fn cell_of(digits: &[u8], radix: u32) -> Option<u32>
    requires low { 2 ≤ radix }
    requires high { radix ≤ 16 }
    ensures value { result ≡ cell_of radix digits.now }
    ensures some { IsSome result → 0 < length digits.now }
{
    let len = digits_len(digits, radix);
    if len < digits.len() {
        return None;
    }
    if len == 0 {
        return None;
    }
    cell_value(digits, radix)
}

/// The value of a number, where the text is one of 32 bits.
#[tactic(auto, unfolding(crate::specs::Values::value_of_number))]
pub fn number_value(text: &[u8]) -> Option<u32>
    ensures value { result ≡ value_of_number text.now }
    ensures some { IsSome result → 0 < length text.now }
{
    if text.starts_with(b"0x") {
        return cell_of(text.split_at(2).1, 16);
    }
    if text.starts_with(b"0") {
        return cell_of(text, 8);
    }
    cell_of(text, 10)
}
