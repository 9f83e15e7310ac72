//! The token at an offset.
ghost use Rattle.std.specs.Prelude.{◌≡◌, ◌<◌, ◌≤◌, length, IfOk, IfErr, IfSome};
ghost use Rattle.hv_dtlex.specs.Tokens.{IsWithin, form_in, token_at};

use crate::blank::skip;
use crate::form::{hex_form, name_form};
use crate::token::{BadToken, Mode, Token, TokenKind};
use crate::value_form::value_form;

/// What stands in front of a text.
#[tactic(auto, unfolding(crate::specs::Tokens::form_in))]
fn form_in(mode: Mode, text: &[u8]) -> Option<(TokenKind, usize)>
    ensures form { result ≡ form_in mode text.now }
    ensures within { IsWithin text.now result }
{
    match mode {
        Mode::Name => name_form(text),
        Mode::Value => value_form(text),
        Mode::Hex => hex_form(text),
    }
}

/// The next token behind white space, or none where only white space is left.
#[tactic(auto, unfolding(crate::specs::Tokens::token_at))]
pub fn next_token(text: &[u8], at: usize, mode: Mode) -> Result<Option<Token>, BadToken>
    requires { at ≤ length text.now }

    // The token, the end and the offset of a refusal are those of the definition.
    ensures token { result ≡ token_at text.now at mode }

    ensures later { IfOk result (λ found. IfSome found (λ token. at ≤ token.start)) }
    ensures some { IfOk result (λ found. IfSome found (λ token. token.start < token.end)) }
    ensures within { IfOk result (λ found. IfSome found (λ token. token.end ≤ length text.now)) }
    ensures bad_within { IfErr result (λ bad. bad.0 < length text.now) }
{
    let rest = skip(text.split_at(at).1);
    if rest.is_empty() {
        return Ok(None);
    }
    let start = text.len() - rest.len();
    match form_in(mode, rest) {
        Some((kind, size)) => Ok(Some(Token {
            kind,
            start,
            end: start + size,
        })),
        None => Err(BadToken(start)),
    }
}
