//! Why words give no data.
ghost use Rattle.std.specs.Prelude.{◌≡◌};
ghost use Rattle.hv_data.specs.declared.refusal.WordRefusal.TheVariants.{Memory};

use std::alloc::{AllocError, AllocFailed};

/// Why words give no data.
#[derive(Debug, Drop)]
pub enum WordRefusal {
    /// A word is missing, or is that of no datum of its kind.
    BadWord,
    /// Memory ran out.
    Memory(AllocError),
}

impl From<AllocError> for WordRefusal {
    ghost from_gives = { λ e refusal. refusal ≡ Memory e };

    fn from(refused: AllocError) -> WordRefusal {
        WordRefusal::Memory(refused)
    }
}

impl<T: Drop> From<AllocFailed<T>> for WordRefusal {
    ghost from_gives = { λ _ refusal. (e : _) × (refusal ≡ Memory e) };

    fn from(_: AllocFailed<T>) -> WordRefusal {
        WordRefusal::Memory(AllocError)
    }
}
