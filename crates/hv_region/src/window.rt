//! A window.
ghost use Rattle.std.specs.Prelude.{◌≡◌, ◌↔◌, ◌<◌, ◌≤◌, ◌+◌, IsTrue};
ghost use Rattle.hv_region.specs.Windows.{Holds, Meets, IsInRange, start_of};

use crate::address::{MEMORY_END, end_of};
use hv_kinds::AddressType;

/// A range of guest addresses that reaches a region.
#[derive(Clone, Copy, Debug, PartialEq, Eq)]
pub struct Window {
    pub owner: u8,
    pub target: u8,
    pub birth: u64,
    pub kind: AddressType,
    pub base: u64,
    pub size: u64,
    /// Where in the target the range begins.
    pub offset: u64,
}

/// Why a window was not added, or no target was found.
#[derive(Clone, Copy, Debug, PartialEq, Eq)]
pub enum RegionRefusal {
    /// It meets the window of this owner.
    Overlap(u8),
    /// It ends behind the addresses of its type.
    OutOfRange,
    /// No region that is no alias has the whole range.
    AliasTarget,
}

impl Window {
    /// Whether the window has all addresses of a range that isn't empty.
    pub(crate) fn holds(&self, kind: AddressType, addr: u64, size: u64) -> bool
        ensures { IsTrue result ↔ Holds self.now kind addr size }
    {
        if self.kind != kind || addr < self.base || size < 1 {
            return false;
        }
        let offset = addr - self.base;
        offset <= self.size && size <= self.size - offset
    }

    /// Whether the window ends within the addresses of its type.
    pub(crate) fn is_in_range(&self) -> bool
        ensures { IsTrue result ↔ IsInRange self.now }
    {
        let end = end_of(self.kind);
        self.base <= end && self.size <= end - self.base
    }

    /// Where a guest sees the window begin.
    pub(crate) fn start(&self) -> u64
        requires { IsInRange self.now }
        ensures { result ≡ start_of self.now }
    {
        match self.kind {
            AddressType::Memory => self.base,
            AddressType::Io => MEMORY_END + self.base,
        }
    }

    /// Whether two windows have an address in common.
    pub(crate) fn meets(&self, other: &Window) -> bool
        requires one { IsInRange self.now }
        requires other { IsInRange other.now }
        ensures { IsTrue result ↔ Meets self.now other.now }
    {
        self.kind == other.kind
            && self.base < other.base + other.size
            && other.base < self.base + self.size
    }
}
