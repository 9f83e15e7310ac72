//! What came of a step, and what its actor learns.
ghost use Rattle.std.specs.Prelude.{None};
ghost use Rattle.hv_handed.specs.Told.{IsTold};
ghost use Rattle.hv_rules.specs.Carry.{nothing};

use crate::carry::Handed;
use crate::pending::Pending;
use hv_answer::Reply;

/// What an actor learns of what its step handed over.
#[derive(Clone, Copy, Debug, PartialEq, Eq)]
pub struct Told {
    /// The number of a script's lines.
    pub lines: Option<u64>,
    /// Slot and birth of the guest whose stage was turned.
    pub guest: Option<(u8, u64)>,
    /// The access that an instruction left pending.
    pub pending: Option<Pending>,
    /// Row and birth of the clock that ticked.
    pub clock: Option<(u8, u64)>,
    /// The row of a region's interrupt parent, and the source there.
    pub parent: Option<(u8, u8)>,
}

impl Told {
    /// Nothing is learnt.
    pub fn nothing() -> Told
        ensures { IsTold nothing result }
    {
        Told {
            lines: None,
            guest: None,
            pending: None,
            clock: None,
            parent: None,
        }
    }
}

/// What came of a step: its reply, what it handed over, and what of that its actor learns.
#[derive(Drop)]
pub struct Made<E> {
    pub reply: Reply,
    pub handed: Handed<E>,
    pub told: Told,
}
