//! The first symbol with which no source goes on.
ghost use Rattle.hv_dtgram.specs.Source.{IsUnexpectedAt, IsSource};
ghost use Rattle.std.specs.Prelude.{MatchOption};

use crate::step::step;
use crate::symbol::{State, Symbol};

/// Where the symbols cease to be those of a source, and none where they are a source.
pub fn first_unexpected(symbols: &[Symbol]) -> Option<usize>
    ensures { MatchOption result (IsSource symbols.now) (IsUnexpectedAt symbols.now) }
{
    let mut state = State::Nothing;
    let mut depth = 0;
    for (at, symbol) in symbols.iter().enumerate() {
        let Some((next, below)) = step(state, depth, *symbol) else {
            return Some(at);
        };
        state = next;
        depth = below;
    }
    match state {
        State::All => None,
        _ => Some(symbols.len()),
    }
}
