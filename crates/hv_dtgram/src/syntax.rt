//! Whether a text is source.
ghost use Rattle.std.specs.Prelude.{◌≡◌, ◌<◌, List, MatchOption, IfOk, IfErr};
ghost use Rattle.hv_dtlex.specs.declared.token.Token.{Token};
ghost use Rattle.hv_dtlex.specs.declared.token.Mode.TheVariants.{Name};
ghost use Rattle.hv_dtgram.specs.declared.syntax.SyntaxRefusal.TheVariants.{Memory};
ghost use Rattle.hv_dtgram.specs.Source.{IsUnexpectedAt};
ghost use Rattle.hv_dtgram.specs.Lexed.{Lexes, IsSourceText, symbols_of};
ghost use Rattle.hv_dtgram.specs.Refused.{IsRefusal, Reads};

use crate::grammar::first_unexpected;
use crate::lexed::{Lexed, lex};
use hv_dtlex::Token;
use std::alloc::{AllocError, Global};
use thiserror::Error;

/// Why a text is no source by its grammar.
#[derive(Debug, Drop, Error)]
pub enum SyntaxRefusal {
    /// The first byte at which no token stands.
    #[error("no token at {0}")]
    BadToken(usize),
    /// The first token with which no source goes on, or the end.
    #[error("unexpected token at {0}")]
    Unexpected(usize),
    #[error("out of memory")]
    Memory(AllocError),
}

impl From<AllocError> for SyntaxRefusal {
    ghost from_gives = { λ e refusal. refusal ≡ Memory e };

    fn from(refused: AllocError) -> SyntaxRefusal {
        SyntaxRefusal::Memory(refused)
    }
}

fn refusal_at(text: &[u8], tokens: &[Token], place: usize, bad: Option<usize>) -> SyntaxRefusal
    requires lexes { Lexes text.now 0 Name tokens.now bad }
    requires unexpected { IsUnexpectedAt (symbols_of text.now tokens.now) place }
    ensures { IsRefusal text.now result }
{
    match tokens.get(place) {
        Some(token) => SyntaxRefusal::Unexpected(token.start),
        None => match bad {
            Some(at) => SyntaxRefusal::BadToken(at),
            None => SyntaxRefusal::Unexpected(text.len()),
        },
    }
}

fn judged(alloc: Global, text: &[u8]) -> Result<Vec<Token>, SyntaxRefusal>
    ensures found { IfOk result (λ tokens. IsSourceText text.now tokens.items) }
    ensures refused { IfErr result (λ refusal. IsRefusal text.now refusal) }
{
    let Lexed {
        tokens,
        symbols,
        bad,
    } = lex(alloc, text)?;
    match first_unexpected(&symbols) {
        Some(place) => Err(refusal_at(text, &tokens, place, bad)),
        None => match bad {
            Some(at) => Err(SyntaxRefusal::BadToken(at)),
            None => Ok(tokens),
        },
    }
}

/// The tokens of a text that is source by its grammar.
pub fn source_tokens(alloc: Global, text: &[u8]) -> Result<Vec<Token>, SyntaxRefusal>
    // What is read is a source.
    ensures found { IfOk result (λ tokens. IsSourceText text.now tokens.items) }

    // A source is read, unless memory runs out.
    ensures only { (tokens : List Token) → IsSourceText text.now tokens → Reads result tokens }

    // A refusal carries its offset.
    ensures refused { IfErr result (λ refusal. IsRefusal text.now refusal) }
{
    judged(alloc, text)
}
