//! What these steps hand over.
ghost use Rattle.std.specs.Prelude.{◌≡◌};
ghost use Rattle.hv_body.specs.Body.{seen};
ghost use Rattle.hv_rules.specs.Body.{parent_of};
ghost use Rattle.hv_rules.specs.Carry.{nothing};
ghost use Rattle.hv_handed.specs.Given.{given};

use hv_body::BodyOf;
use hv_emu::Emulator;
use hv_handed::{Carry, Handed, hand_region};
use hv_signals::parent_of;
use std::snapshot::Snapshot;

/// The row of a region with this body, and where its interrupts go.
pub fn hand_body<E: Emulator>(row: u8, body: &BodyOf<E>) -> Handed<E>
    ensures { given E.state result.value
        ≡ record nothing { row = Some row; parent = parent_of (seen E.state body.now) } }
{
    hand_region(row, parent_of(body))
}

/// Row and birth of the guest's clock, and where its interrupts go.
pub fn hand_clock<E: Emulator>(clock: Option<(u8, u64)>, parent: Option<(u8, u8)>) -> Handed<E>
    ensures { given E.state result.value ≡ record nothing { clock = clock; parent = parent } }
{
    let mut carry = Carry::nothing();
    carry.clock = clock;
    carry.parent = parent;
    Snapshot::of(&carry)
}
