//! The tokens of a text.
ghost use Rattle.std.specs.Prelude.{◌≡◌, ◌≤◌, ◌<◌, length, IfOk};
ghost use Rattle.hv_dtlex.specs.declared.token.Mode.TheVariants.{Name};
ghost use Rattle.hv_dtgram.specs.Lexed.{Lexes, mode_after, symbol_of, symbols_of};

use crate::symbol::Symbol;
use crate::word::kind_and_word;
use hv_dtlex::{Mode, Token, TokenKind, next_token};
use std::alloc::{AllocError, Global};

/// Tokens with their symbols, and the offset where no token stands, if there is one.
#[derive(Drop)]
pub struct Lexed {
    pub tokens: Vec<Token>,
    pub symbols: Vec<Symbol>,
    pub bad: Option<usize>,
}

/// The mode behind a token.
pub fn mode_after(mode: Mode, kind: TokenKind) -> Mode
    ensures { result ≡ mode_after mode kind }
{
    match kind {
        TokenKind::Equals => Mode::Value,
        TokenKind::Semicolon => Mode::Name,
        TokenKind::BytesOpen => Mode::Hex,
        TokenKind::BytesClose => Mode::Value,
        _ => mode,
    }
}

fn symbol_of(text: &[u8], token: Token) -> Symbol
    requires some { token.start < token.end }
    requires within { token.end ≤ length text.now }
    ensures { result ≡ symbol_of text.now token }
{
    kind_and_word(
        token.kind,
        text.split_at(token.end).0.split_at(token.start).1,
    )
}

// How many tokens there are, so that no more memory is taken than they need.
fn count_tokens(text: &[u8]) -> usize {
    let mut count = 0usize;
    let mut at = 0;
    let mut mode = Mode::Name;
    'counting: while let Ok(Some(token)) = next_token(text, at, mode) {
        count = count.saturating_add(1);
        at = token.end;
        mode = mode_after(mode, token.kind);
    }
    count
}

/// The tokens of a text up to its end or to where no token stands.
pub fn lex(alloc: Global, text: &[u8]) -> Result<Lexed, AllocError>
    ensures tokens { IfOk result (λ lexed. Lexes text.now 0 Name lexed.tokens.items lexed.bad) }
    ensures symbols { IfOk result (λ lexed. lexed.symbols.items ≡ symbols_of text.now lexed.tokens.items) }
{
    let count = count_tokens(text);
    let mut tokens = Vec::with_capacity(alloc, count)?;
    let mut symbols = Vec::with_capacity(alloc, count)?;
    let mut at = 0;
    let mut mode = Mode::Name;
    'lexing: loop {
        match next_token(text, at, mode) {
            Ok(Some(token)) => {
                symbols.push(symbol_of(text, token))?;
                tokens.push(token)?;
                at = token.end;
                mode = mode_after(mode, token.kind);
            }
            Ok(None) => return Ok(Lexed {
                tokens,
                symbols,
                bad: None,
            }),
            Err(bad) => return Ok(Lexed {
                tokens,
                symbols,
                bad: Some(bad.0),
            }),
        }
    }
}
