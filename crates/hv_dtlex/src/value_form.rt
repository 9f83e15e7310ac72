//! What may stand in a value.
ghost use Rattle.std.specs.Prelude.{◌≡◌, length};
ghost use Rattle.hv_dtlex.specs.Tokens.{IsWithin, reference_form, number_form, string_form, list_mark, value_mark, value_form};

use crate::class::{ByteClass, run_len};
use crate::digits::number_value;
use crate::form::{fixed_form, name_len};
use crate::string::string_len;
use crate::token::TokenKind;

#[tactic(auto, unfolding(crate::specs::Tokens::reference_form))]
fn reference_form(text: &[u8]) -> Option<(TokenKind, usize)>
    ensures form { result ≡ reference_form text.now }
    ensures within { IsWithin text.now result }
{
    if !text.starts_with(b"&") {
        return None;
    }
    let len = name_len(text.split_at(1).1)?;
    Some((TokenKind::Reference, len + 1))
}

#[tactic(auto, unfolding(crate::specs::Tokens::number_form))]
fn number_form(text: &[u8]) -> Option<(TokenKind, usize)>
    ensures form { result ≡ number_form text.now }
    ensures within { IsWithin text.now result }
{
    let len = run_len(text, ByteClass::Alphanumeric);
    if number_value(text.split_at(len).0).is_some() {
        return Some((TokenKind::Number, len));
    }
    None
}

#[tactic(auto, unfolding(crate::specs::Tokens::string_form))]
fn string_form(text: &[u8]) -> Option<(TokenKind, usize)>
    ensures form { result ≡ string_form text.now }
    ensures within { IsWithin text.now result }
{
    if !text.starts_with(b"\"") {
        return None;
    }
    let len = string_len(text.split_at(1).1)?;
    Some((TokenKind::Text, len + 1))
}

#[tactic(auto, unfolding(crate::specs::Tokens::list_mark))]
fn list_mark(text: &[u8]) -> Option<(TokenKind, usize)>
    ensures form { result ≡ list_mark text.now }
    ensures within { IsWithin text.now result }
{
    fixed_form(b"<", TokenKind::CellsOpen, text).or(fixed_form(
        b">",
        TokenKind::CellsClose,
        text,
    ).or(fixed_form(b"[", TokenKind::BytesOpen, text)))
}

#[tactic(auto, unfolding(crate::specs::Tokens::value_mark))]
fn value_mark(text: &[u8]) -> Option<(TokenKind, usize)>
    ensures form { result ≡ value_mark text.now }
    ensures within { IsWithin text.now result }
{
    list_mark(text).or(fixed_form(b",", TokenKind::Comma, text).or(fixed_form(
        b";",
        TokenKind::Semicolon,
        text,
    )))
}

/// What may stand in a value.
#[tactic(auto, unfolding(crate::specs::Tokens::value_form))]
pub fn value_form(text: &[u8]) -> Option<(TokenKind, usize)>
    ensures form { result ≡ value_form text.now }
    ensures within { IsWithin text.now result }
{
    value_mark(text).or(string_form(text).or(reference_form(text).or(number_form(text))))
}
