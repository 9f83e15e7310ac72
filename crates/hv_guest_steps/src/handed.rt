//! What these steps hand over.
ghost use Rattle.std.specs.Prelude.{◌≡◌, Some, None};
ghost use Rattle.std.specs.Option.{option_map};
ghost use Rattle.hv_handed.specs.Given.{given};
ghost use Rattle.hv_rules.specs.Carry.{nothing};

use hv_emu::Emulator;
use hv_handed::{Carry, Handed};
use hv_refusal::Refusal;
use hv_region::RegionPlan;
use std::snapshot::Snapshot;

/// Why a step is refused before a component is asked, if it is.
pub fn stop_handed<E: Emulator>(stopped: Option<Snapshot<Refusal>>) -> Handed<E>
    ensures { given E.state result.value
        ≡ record nothing { stopped = option_map (λ why. why.value) stopped } }
{
    let mut carry = Carry::nothing();
    carry.stopped = stopped;
    Snapshot::of(&carry)
}

/// Slot and birth of a guest.
pub fn guest_handed<E: Emulator>(guest: Option<(u8, u64)>) -> Handed<E>
    ensures { given E.state result.value ≡ record nothing { guest = guest } }
{
    let mut carry = Carry::nothing();
    carry.guest = guest;
    Snapshot::of(&carry)
}

/// What is handed over of a region: its row, its plan with the number of the guest's VCPUs, the
/// target of an alias, the device that moves and the parent.
pub fn region_handed<E: Emulator>(
    row: u8,
    plan: Option<(Snapshot<RegionPlan>, u8)>,
    stopped: Option<Snapshot<Refusal>>,
    target: Option<(u8, u64)>,
    device: Option<Snapshot<E>>,
    parent: Option<(u8, u8)>,
) -> Handed<E>
    ensures { given E.state result.value
        ≡ record nothing {
          row = Some row;
          plan = option_map (λ plan. (plan.0.value, plan.1)) plan;
          stopped = option_map (λ why. why.value) stopped;
          target = target;
          device = option_map (λ device. E.state device.value) device;
          parent = parent;
        } }
{
    let mut carry = Carry::nothing();
    carry.row = Some(row);
    carry.plan = plan;
    carry.stopped = stopped;
    carry.target = target;
    carry.device = device;
    carry.parent = parent;
    Snapshot::of(&carry)
}

/// A device that moves, as it is before.
pub fn remembered<E>(part: &Option<E>) -> Option<Snapshot<E>>
    ensures { option_map (λ device. device.value) result ≡ part.now }
{
    match part {
        Some(part) => Some(Snapshot::of(part)),
        None => None,
    }
}
