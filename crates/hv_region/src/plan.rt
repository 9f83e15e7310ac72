//! Plans of guests, of their VCPUs and of their regions.

use hv_kinds::AddressType;
use hv_text::{Bytes, Strings};

/// How a VCPU begins.
#[derive(Clone, Copy, Debug, PartialEq, Eq)]
pub struct VcpuPlan {
    pub start: u64,
    pub priority: u8,
    pub slice: u32,
}

/// What a region is made of.
#[derive(Debug, Drop)]
pub enum Form {
    Ram,
    Rom,
    /// The names of emulators that would do, the best one first.
    Device(Strings),
    Real { area: u8, offset: u64 },
    /// The address that its first byte stands for.
    Alias(u64),
}

/// A region of a guest.
#[derive(Debug, Drop)]
pub struct RegionPlan {
    pub name: Bytes,
    pub kind: AddressType,
    pub base: u64,
    pub size: u64,
    pub form: Form,
    /// It isn't built when the guest is created.
    pub detached: bool,
    /// It is the guest's clock.
    pub clock: bool,
    /// The row of the region that takes its interrupts, and the source there.
    pub parent: Option<(u8, u8)>,
}

/// What a guest is made of.
#[derive(Debug, Drop)]
pub struct GuestPlan {
    pub name: Bytes,
    pub vcpus: Vec<VcpuPlan>,
    pub regions: Vec<RegionPlan>,
}
