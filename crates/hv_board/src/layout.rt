//! Where the components of a board stand.
ghost use Rattle.std.specs.Prelude.{◌≡◌, ◌<◌, ◌↔◌, IsTrue};
ghost use Rattle.hv_board.specs.Places.{HasPlace, count_of, first_area, first_vcpu, place_of};

use hv_event::CellId;
use hv_text::{GUEST_REGIONS, SLOTS, VCPUS};

const FIRST_SPACE: usize = 3;

const FIRST_QUEUE: usize = FIRST_SPACE + SLOTS;

/// How many harts and areas a board has; of the other kinds each board has as many.
#[derive(Clone, Copy, Debug, PartialEq, Eq)]
pub struct Layout {
    pub harts: u8,
    pub areas: u8,
}

impl Layout {
    /// Where the VCPUs begin.
    fn first_vcpu(self) -> usize
        ensures { result ≡ first_vcpu self }
    {
        FIRST_QUEUE + self.harts as usize
    }

    /// Where the areas begin.
    fn first_area(self) -> usize
        ensures { result ≡ first_area self }
    {
        self.first_vcpu() + VCPUS + SLOTS * GUEST_REGIONS
    }

    /// How many components the board has.
    pub fn count(self) -> usize
        ensures { result ≡ count_of self }
    {
        self.first_area() + self.areas as usize
    }

    /// Whether the board has a component.
    pub fn has(self, component: CellId) -> bool
        ensures { IsTrue result ↔ HasPlace self component }
    {
        match component {
            CellId::Dir => true,
            CellId::Shelf => true,
            CellId::Files => true,
            CellId::Space(slot) => (slot as usize) < SLOTS,
            CellId::Queue(hart) => hart < self.harts,
            CellId::Vcpu(vcpu) => (vcpu as usize) < VCPUS,
            CellId::Body(slot, row) => (slot as usize) < SLOTS && (row as usize) < GUEST_REGIONS,
            CellId::Area(area) => area < self.areas,
        }
    }

    /// Where a component stands.
    pub fn place_of(self, component: CellId) -> usize
        requires { HasPlace self component }
        ensures place { result ≡ place_of self component }
        ensures within { result < count_of self }
    {
        match component {
            CellId::Dir => 0,
            CellId::Shelf => 1,
            CellId::Files => 2,
            CellId::Space(slot) => FIRST_SPACE + slot as usize,
            CellId::Queue(hart) => FIRST_QUEUE + hart as usize,
            CellId::Vcpu(vcpu) => self.first_vcpu() + vcpu as usize,
            CellId::Body(slot, row) => {
                self.first_vcpu() + VCPUS + (slot as usize * GUEST_REGIONS + row as usize)
            }
            CellId::Area(area) => self.first_area() + area as usize,
        }
    }
}
