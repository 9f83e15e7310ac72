//! What is wrong with a tree.
ghost use Rattle.std.specs.Prelude.{◌≡◌};

use hv_kinds::{Cause, LimitName};
use hv_text::Bytes;
use std::alloc::{AllocError, AllocFailed};

/// Why there is no plan of a guest.
#[derive(Debug, Drop)]
pub enum PlanRefusal {
    NoGuest,
    /// The path of the first faulty node.
    BadNode(Bytes, Cause),
    Memory(AllocError),
}

impl From<AllocError> for PlanRefusal {
    ghost use Rattle.hv_plan.specs.declared.refusal.PlanRefusal.TheVariants.{Memory};

    ghost from_gives = { λ error refusal. refusal ≡ Memory error };

    fn from(error: AllocError) -> PlanRefusal {
        PlanRefusal::Memory(error)
    }
}

/// Why there are no settings.
#[derive(Debug, Drop)]
pub enum HostRefusal {
    /// The path of the first faulty node.
    BadHost(Bytes),
    /// More than allowed, and how many.
    Limit(LimitName, u64),
    Memory(AllocError),
}

impl From<AllocError> for HostRefusal {
    ghost use Rattle.hv_plan.specs.declared.refusal.HostRefusal.TheVariants.{Memory};

    ghost from_gives = { λ error refusal. refusal ≡ Memory error };

    fn from(error: AllocError) -> HostRefusal {
        HostRefusal::Memory(error)
    }
}

impl<T: Drop> From<AllocFailed<T>> for PlanRefusal {
    ghost use Rattle.hv_plan.specs.declared.refusal.PlanRefusal.TheVariants.{Memory};
    ghost use Rattle.std.specs.Prelude.{alloc_error};

    ghost from_gives = { λ failed refusal. refusal ≡ Memory alloc_error };

    fn from(failed: AllocFailed<T>) -> PlanRefusal {
        let AllocFailed { value: _ } = failed;
        PlanRefusal::Memory(AllocError)
    }
}

impl<T: Drop> From<AllocFailed<T>> for HostRefusal {
    ghost use Rattle.hv_plan.specs.declared.refusal.HostRefusal.TheVariants.{Memory};
    ghost use Rattle.std.specs.Prelude.{alloc_error};

    ghost from_gives = { λ failed refusal. refusal ≡ Memory alloc_error };

    fn from(failed: AllocFailed<T>) -> HostRefusal {
        let AllocFailed { value: _ } = failed;
        HostRefusal::Memory(AllocError)
    }
}
