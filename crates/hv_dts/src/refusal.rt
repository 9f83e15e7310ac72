//! Why a text is no source.
ghost use Rattle.std.specs.Prelude.{◌≡◌};
ghost use Rattle.hv_dts.specs.Syntax.{refused_by};
ghost use Rattle.hv_dts.specs.declared.refusal.DtsRefusal.TheVariants.{Memory};

use hv_dtgram::SyntaxRefusal;
use std::alloc::AllocError;
use thiserror::Error;

/// Why a text is no source, with the offset where.
#[derive(Debug, Drop, Error)]
pub enum DtsRefusal {
    /// The first byte at which no token stands.
    #[error("no token at {0}")]
    BadToken(usize),
    /// The first token with which no source goes on, or the end.
    #[error("unexpected token at {0}")]
    Unexpected(usize),
    /// A label of the file, or the name of a property or a child of a node, that was there before.
    #[error("a name used twice at {0}")]
    TwiceNamed(usize),
    /// The name of a phandle that is no number of a node, or one that was there before.
    #[error("a bad phandle at {0}")]
    BadPhandle(usize),
    /// A reference to a label that no node has.
    #[error("no label for the reference at {0}")]
    NoLabel(usize),
    #[error("out of memory")]
    Memory(AllocError),
}

impl From<AllocError> for DtsRefusal {
    ghost from_gives = { λ e refusal. refusal ≡ Memory e };

    fn from(refused: AllocError) -> DtsRefusal {
        DtsRefusal::Memory(refused)
    }
}

impl From<SyntaxRefusal> for DtsRefusal {
    ghost from_gives = { λ e refusal. refusal ≡ refused_by e };

    fn from(refused: SyntaxRefusal) -> DtsRefusal {
        match refused {
            SyntaxRefusal::BadToken(at) => DtsRefusal::BadToken(at),
            SyntaxRefusal::Unexpected(at) => DtsRefusal::Unexpected(at),
            SyntaxRefusal::Memory(refused) => DtsRefusal::Memory(refused),
        }
    }
}
