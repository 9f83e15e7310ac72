//! Why a line gives no event.
ghost use Rattle.std.specs.Prelude.{◌≡◌};
ghost use Rattle.hv_event.specs.declared.refusal.LineRefusal.TheVariants.{Memory};

use std::alloc::{AllocError, AllocFailed};

/// Why a line gives no event.
#[derive(Debug, Drop)]
pub enum LineRefusal {
    /// No event has this line.
    BadLine,
    /// Memory ran out.
    Memory(AllocError),
}

impl From<AllocError> for LineRefusal {
    ghost from_gives = { λ e refusal. refusal ≡ Memory e };

    fn from(refused: AllocError) -> LineRefusal {
        LineRefusal::Memory(refused)
    }
}

impl<T: Drop> From<AllocFailed<T>> for LineRefusal {
    ghost from_gives = { λ _ refusal. (e : _) × (refusal ≡ Memory e) };

    fn from(_: AllocFailed<T>) -> LineRefusal {
        LineRefusal::Memory(AllocError)
    }
}
