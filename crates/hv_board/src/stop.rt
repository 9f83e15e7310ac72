//! Why an event was not made.
use std::alloc::AllocError;

/// Why an event was not made.
#[derive(Clone, Copy, Debug)]
pub enum Stop {
    /// Out of memory.
    Memory(AllocError),
    /// The greatest stamp of its actor and of what it touches is the last one.
    Spent(u64),
}

impl From<AllocError> for Stop {
    ghost use Rattle.std.specs.Prelude.{◌≡◌};
    ghost use Rattle.hv_board.specs.declared.stop.Stop.TheVariants as stop;

    ghost from_gives = { λ error why. why ≡ stop.Memory error };

    fn from(error: AllocError) -> Stop {
        Stop::Memory(error)
    }
}
