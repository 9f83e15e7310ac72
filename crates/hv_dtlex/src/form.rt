//! What may stand among names, and between brackets.
ghost use Rattle.std.specs.Prelude.{◌≡◌, ◌<◌, ◌≤◌, length, codes, IfSome};
ghost use Rattle.std.specs.List.{prefix_len};
ghost use Rattle.hv_dtlex.specs.Class.{is_word_byte};
ghost use Rattle.hv_dtlex.specs.Tokens.{Form, IsWithin, fixed_form, run_form, name_len, label_form, root_form, name_mark, name_form, pair_form, hex_form};

use crate::class::{ByteClass, run_len};
use crate::token::TokenKind;

/// A token that is always the same bytes.
pub fn fixed_form(bytes: &[u8], kind: TokenKind, text: &[u8]) -> Option<(TokenKind, usize)>
    requires { 0 < length bytes.now }
    ensures form { result ≡ fixed_form bytes.now kind text.now }
    ensures within { IsWithin text.now result }
{
    if text.starts_with(bytes) {
        return Some((kind, bytes.len()));
    }
    None
}

/// How long the name of a label in front is.
pub fn name_len(text: &[u8]) -> Option<usize>
    ensures len { result ≡ name_len text.now }
    ensures within { IfSome result (λ len. len ≤ length text.now) }
{
    let len = run_len(text, ByteClass::Name);
    let first = text.first()?;
    if len == 0 {
        return None;
    }
    if len > 31 {
        return None;
    }
    if first.is_ascii_digit() {
        return None;
    }
    Some(len)
}

#[tactic(auto, unfolding(crate::specs::Tokens::label_form))]
fn label_form(text: &[u8]) -> Option<(TokenKind, usize)>
    ensures form { result ≡ label_form text.now }
    ensures within { IsWithin text.now result }
{
    let len = name_len(text)?;
    if text.split_at(len).1.starts_with(b":") {
        return Some((TokenKind::Label, len + 1));
    }
    None
}

fn word_form(text: &[u8]) -> Option<(TokenKind, usize)>
    ensures form { result ≡ run_form TokenKind.Word (prefix_len is_word_byte text.now) }
    ensures within { IsWithin text.now result }
{
    let len = run_len(text, ByteClass::Word);
    if len == 0 {
        return None;
    }
    Some((TokenKind::Word, len))
}

#[tactic(auto, unfolding(crate::specs::Tokens::root_form))]
fn root_form(text: &[u8]) -> Option<(TokenKind, usize)>
    ensures form { result ≡ root_form text.now }
    ensures within { IsWithin text.now result }
{
    if text.starts_with(b"/*") {
        return None;
    }
    fixed_form(b"/", TokenKind::Root, text)
}

#[tactic(auto, unfolding(crate::specs::Tokens::name_mark))]
fn name_mark(text: &[u8]) -> Option<(TokenKind, usize)>
    ensures form { result ≡ name_mark text.now }
    ensures within { IsWithin text.now result }
{
    fixed_form(b"{", TokenKind::NodeOpen, text).or(fixed_form(b"}", TokenKind::NodeClose, text).or(
        fixed_form(b";", TokenKind::Semicolon, text).or(fixed_form(b"=", TokenKind::Equals, text)),
    ))
}

/// What may stand among names.
#[tactic(auto, unfolding(crate::specs::Tokens::name_form))]
pub fn name_form(text: &[u8]) -> Option<(TokenKind, usize)>
    ensures form { result ≡ name_form text.now }
    ensures within { IsWithin text.now result }
{
    fixed_form(b"/dts-v1/", TokenKind::Version, text).or(root_form(text).or(name_mark(text).or(
        label_form(text).or(word_form(text)),
    )))
}

#[tactic(auto, unfolding(crate::specs::Tokens::pair_form))]
fn pair_form(text: &[u8]) -> Option<(TokenKind, usize)>
    ensures form { result ≡ pair_form text.now }
    ensures within { IsWithin text.now result }
{
    let (first, rest) = text.split_first()?;
    let second = rest.first()?;
    if !first.is_ascii_hexdigit() {
        return None;
    }
    if !second.is_ascii_hexdigit() {
        return None;
    }
    Some((TokenKind::Pair, 2))
}

/// What may stand between brackets.
#[tactic(auto, unfolding(crate::specs::Tokens::hex_form))]
pub fn hex_form(text: &[u8]) -> Option<(TokenKind, usize)>
    ensures form { result ≡ hex_form text.now }
    ensures within { IsWithin text.now result }
{
    fixed_form(b"]", TokenKind::BytesClose, text).or(pair_form(text))
}
