//! Why a line gives no command.
ghost use Rattle.std.specs.Prelude.{◌≡◌};
ghost use Rattle.hv_words.specs.declared.refusal.WordsRefusal.TheVariants.{Memory};

use std::alloc::{AllocError, AllocFailed};
use thiserror::Error;

/// Why a line gives no command.
#[derive(Debug, Drop, Error)]
pub enum WordsRefusal {
    /// A byte is not printable, or the first two words are no row.
    #[error("no command")]
    NoCommand,
    /// The word of this number, from 1, doesn't fit, is missing or is too much.
    #[error("bad word {0}")]
    BadWords(usize),
    #[error("out of memory")]
    Memory(AllocError),
}

impl From<AllocError> for WordsRefusal {
    ghost from_gives = { λ e refusal. refusal ≡ Memory e };

    fn from(refused: AllocError) -> WordsRefusal {
        WordsRefusal::Memory(refused)
    }
}

impl<T: Drop> From<AllocFailed<T>> for WordsRefusal {
    ghost from_gives = { λ _ refusal. (e : _) × (refusal ≡ Memory e) };

    fn from(_: AllocFailed<T>) -> WordsRefusal {
        WordsRefusal::Memory(AllocError)
    }
}
