//! The words of a call.
ghost use Rattle.std.specs.Prelude.{◌≡◌, ◌≢◌, ◌↔◌, ◌∷◌, List, ℕ, map, MatchOption, IsTrue, string_bytes};
ghost use Rattle.xvsim.specs.Words.{AreRunWords, AreCheckWords, AreGenWords, WritesNumber, AreWords, NameCommand};

use hv_text::{digits_len, digits_value};

/// What the words name.
#[derive(Clone, Copy, Debug, PartialEq, Eq)]
pub enum Command {
    Run,
    Check,
    /// The bundle that is made of this number.
    Gen(u16),
}

/// The words behind the first, where that is this text.
fn behind<'a>(words: &'a [String], text: &str) -> Option<&'a [String]>
    ensures { MatchOption result
        ((rest : List (List ℕ)) → map string_bytes words.now ≢ text.now ∷ rest)
        (λ rest. map string_bytes words.now ≡ text.now ∷ map string_bytes rest.now) }
{
    let (first, rest) = words.split_first()?;
    if first.as_str() == text {
        Some(rest)
    } else {
        None
    }
}

/// Whether the words are those of a run.
fn are_run_words(words: &[String]) -> bool
    ensures { IsTrue result ↔ AreRunWords (map string_bytes words.now) }
{
    let Some(rest) = behind(words, "run") else {
        return false;
    };
    let Some(rest) = behind(rest, "--turns") else {
        return false;
    };
    let Some(rest) = behind(rest, "0") else {
        return false;
    };
    let Some(rest) = behind(rest, "--order") else {
        return false;
    };
    let Some(rest) = behind(rest, "seq") else {
        return false;
    };
    rest.is_empty()
}

/// Whether the words are that of a check.
fn are_check_words(words: &[String]) -> bool
    ensures { IsTrue result ↔ AreCheckWords (map string_bytes words.now) }
{
    let Some(rest) = behind(words, "check") else {
        return false;
    };
    rest.is_empty()
}

/// The number of 16 bits that decimal digits write.
fn read_small(digits: &[u8]) -> Option<u16>
    ensures { MatchOption result
        ((number : ℕ) → WritesNumber number digits.now → ⊥)
        (λ number. WritesNumber number digits.now) }
{
    if digits.is_empty() {
        return None;
    }
    if digits_len(digits, 10) < digits.len() {
        return None;
    }
    let value = digits_value(digits, 10)?;
    match u16::try_from(value) {
        Ok(number) => Some(number),
        Err(_) => None,
    }
}

/// The number whose files the words ask for.
fn gen_number(words: &[String]) -> Option<u16>
    ensures { MatchOption result
        ((number : ℕ) → AreGenWords number (map string_bytes words.now) → ⊥)
        (λ number. AreGenWords number (map string_bytes words.now)) }
{
    let (digits, rest) = behind(words, "gen")?.split_first()?;
    if !rest.is_empty() {
        return None;
    }
    read_small(digits.as_bytes())
}

/// The command that the words name.
pub fn read_words(words: &[String]) -> Option<Command>
    ensures { MatchOption result
        (AreWords (map string_bytes words.now) → ⊥)
        (NameCommand (map string_bytes words.now)) }
{
    if are_run_words(words) {
        return Some(Command::Run);
    }
    if are_check_words(words) {
        return Some(Command::Check);
    }
    match gen_number(words) {
        Some(number) => Some(Command::Gen(number)),
        None => None,
    }
}
