//! What the steps of VCPUs hand over.
ghost use Rattle.std.specs.Prelude.{◌≡◌, Some};
ghost use Rattle.hv_handed.specs.Given.{given};
ghost use Rattle.hv_rules.specs.Carry.{nothing};

use hv_emu::Emulator;
use hv_handed::{Carry, Handed};
use hv_queue::QueueEntry;
use hv_region::VcpuPlan;
use hv_vcpu::Vcpu;
use std::snapshot::Snapshot;

/// The priority of a VCPU.
pub(crate) fn hand_priority<E: Emulator>(vcpu: &Vcpu) -> Handed<E>
    ensures { given E.state result.value
        ≡ record nothing { priority = Some vcpu.now.plan.priority } }
{
    let mut carry = Carry::nothing();
    carry.priority = Some(Snapshot::of(vcpu));
    Snapshot::of(&carry)
}

/// The index and the plan of a VCPU that is added.
pub(crate) fn hand_plan<E: Emulator>(index: u8, plan: VcpuPlan) -> Handed<E>
    ensures { given E.state result.value ≡ record nothing { vcpu = Some (index, plan) } }
{
    let mut carry = Carry::nothing();
    carry.vcpu = Some((index, plan));
    Snapshot::of(&carry)
}

/// The lengths of all queues, and the entry that is moved.
pub fn hand_balance<E: Emulator>(lengths: &Vec<u64>, moved: Option<QueueEntry>) -> Handed<E>
    ensures { given E.state result.value
        ≡ record nothing { lengths = lengths.now.items; moved = moved } }
{
    let mut carry = Carry::nothing();
    carry.lengths = Some(Snapshot::of(lengths));
    carry.moved = moved;
    Snapshot::of(&carry)
}
