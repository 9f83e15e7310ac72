//! What is handed over.
ghost use Rattle.std.specs.Prelude.{◌≡◌};
ghost use Rattle.hv_rules.specs.Carry.{nothing};
ghost use Rattle.hv_handed.specs.Given.{given};

use crate::pending::Pending;
use hv_emu::Emulator;
use hv_queue::QueueEntry;
use hv_refusal::Refusal;
use hv_region::{RegionPlan, VcpuPlan, Window};
use hv_text::Bytes;
use hv_vcpu::Vcpu;
use std::snapshot::Snapshot;

/// What a step hands from one component to another without showing it in its event. What is large
/// is there for contracts alone.
#[derive(Drop)]
pub struct Carry<E> {
    /// The number of a script's lines.
    pub lines: Option<u64>,
    /// The bytes of a file.
    pub bytes: Option<Snapshot<Bytes>>,
    /// Slot and birth of a guest.
    pub guest: Option<(u8, u64)>,
    /// Index and plan of a VCPU that is added.
    pub vcpu: Option<(u8, VcpuPlan)>,
    /// The VCPU that becomes ready, with its priority.
    pub priority: Option<Snapshot<Vcpu>>,
    /// The lengths of all queues.
    pub lengths: Option<Snapshot<Vec<u64>>>,
    /// The entry that is moved from one queue to another.
    pub moved: Option<QueueEntry>,
    /// The address of the instruction that is fetched.
    pub pc: Option<u64>,
    /// The access that it leaves pending.
    pub pending: Option<Pending>,
    /// Why a component refuses a step before another is asked.
    pub stopped: Option<Snapshot<Refusal>>,
    /// The row of a region.
    pub row: Option<u8>,
    /// The plan of a region, and how many VCPUs its guest has.
    pub plan: Option<(Snapshot<RegionPlan>, u8)>,
    /// The device that moves.
    pub device: Option<Snapshot<E>>,
    /// The window that holds an access.
    pub window: Option<Window>,
    /// The row and the offset of an alias's target.
    pub target: Option<(u8, u64)>,
    /// Row and birth of the guest's clock.
    pub clock: Option<(u8, u64)>,
    /// The area of a real region, and the offset in it.
    pub area: Option<(u8, u64)>,
    /// The row of a region's interrupt parent, and the source there.
    pub parent: Option<(u8, u8)>,
}

/// What is handed over, for contracts alone.
pub type Handed<E> = Snapshot<Carry<E>>;

impl<E: Emulator> Carry<E> {
    /// Nothing is handed over.
    pub fn nothing() -> Carry<E>
        ensures { given E.state result ≡ nothing }
    {
        Carry {
            lines: None,
            bytes: None,
            guest: None,
            vcpu: None,
            priority: None,
            lengths: None,
            moved: None,
            pc: None,
            pending: None,
            stopped: None,
            row: None,
            plan: None,
            device: None,
            window: None,
            target: None,
            clock: None,
            area: None,
            parent: None,
        }
    }
}
