//! What steps of several families hand over.
ghost use Rattle.std.specs.Prelude.{◌≡◌, Some};
ghost use Rattle.hv_handed.specs.Given.{given};
ghost use Rattle.hv_rules.specs.Carry.{nothing};

use crate::carry::{Carry, Handed};
use hv_emu::Emulator;
use std::snapshot::Snapshot;

/// Nothing is handed over.
pub fn hand_nothing<E: Emulator>() -> Handed<E>
    ensures { given E.state result.value ≡ nothing }
{
    Snapshot::of(&Carry::nothing())
}

/// A region's row, and where its interrupts go.
pub fn hand_region<E: Emulator>(row: u8, parent: Option<(u8, u8)>) -> Handed<E>
    ensures { given E.state result.value ≡ record nothing { row = Some row; parent = parent } }
{
    let mut carry = Carry::nothing();
    carry.row = Some(row);
    carry.parent = parent;
    Snapshot::of(&carry)
}
