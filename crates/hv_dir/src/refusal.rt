//! Why a call on the directory was refused.
ghost use Rattle.std.specs.Prelude.{◌≡◌};

use hv_kinds::Stage;
use std::alloc::AllocError;

/// Why a call on the directory was refused.
#[derive(Clone, Copy, Debug, PartialEq, Eq)]
pub enum DirRefusal {
    /// A guest has this name.
    NameUsed,
    /// Every slot is taken.
    NoSlot,
    /// No guest has this name.
    NoSuchGuest,
    /// The guest is at another stage, which is this.
    GuestState(Stage),
    /// Out of memory.
    Memory(AllocError),
}

impl From<AllocError> for DirRefusal {
    ghost use Rattle.hv_dir.specs.declared.refusal.DirRefusal.TheVariants.{Memory};

    ghost from_gives = { λ error refusal. refusal ≡ Memory error };

    fn from(error: AllocError) -> DirRefusal {
        DirRefusal::Memory(error)
    }
}
