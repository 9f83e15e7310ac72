//! Why a step was not made.
use std::alloc::AllocError;

/// Why a step was not made.
#[derive(Clone, Copy, Debug)]
pub enum Stop {
    /// Out of memory.
    Memory(AllocError),
    /// The greatest stamp of what the step touches is the last one.
    Spent(u64),
}

impl From<AllocError> for Stop {
    ghost use Rattle.std.specs.Prelude.{◌≡◌};
    ghost use Rattle.hv_rounds.specs.declared.stop.Stop.TheVariants as stop;

    ghost from_gives = { λ error why. why ≡ stop.Memory error };

    fn from(error: AllocError) -> Stop {
        Stop::Memory(error)
    }
}
