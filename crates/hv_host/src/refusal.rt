//! Why a host tree gives no board.
ghost use Rattle.std.specs.Prelude.{◌≡◌};
ghost use Rattle.hv_host.specs.declared.refusal.BoardRefusal.TheVariants.{Memory};

use hv_kinds::LimitName;
use hv_text::Bytes;
use std::alloc::AllocError;

/// Why a host tree gives no board.
#[derive(Debug, Drop)]
pub enum BoardRefusal {
    /// The text stops being a device tree source at this offset.
    BadTree(u64),
    /// So many of something are too many.
    Limit(LimitName, u64),
    /// The path of the first node that breaks a setting.
    BadHost(Bytes),
    Memory(AllocError),
}

impl From<AllocError> for BoardRefusal {
    ghost from_gives = { λ error refusal. refusal ≡ Memory error };

    fn from(error: AllocError) -> BoardRefusal {
        BoardRefusal::Memory(error)
    }
}
