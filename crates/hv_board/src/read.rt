//! The components of a board, to be read.
ghost use Rattle.std.specs.Prelude.{◌≡◌, ◌<◌, Some};
ghost use Rattle.hv_event.specs.declared.event.CellId.TheVariants as component;
ghost use Rattle.hv_parts.specs.Kinds.{IsPartOf};
ghost use Rattle.hv_parts.specs.Value.{valued};
ghost use Rattle.hv_parts.specs.declared.part.Part.TheVariants as part;
ghost use Rattle.hv_text.specs.declared.limits.TheConstants.{GUEST_REGIONS, SLOTS, VCPUS};
ghost use Rattle.hv_board.specs.Board.{IsWhole, part_at};
ghost use Rattle.hv_board.specs.Places.{HasPlace};

use crate::board::Board;
use crate::layout::Layout;
use hv_body::{Area, BodyOf};
use hv_dir::{Dir, ShelfOf};
use hv_emu::Emulator;
use hv_event::CellId;
use hv_files::FileTree;
use hv_parts::Part;
use hv_queue::Queue;
use hv_space::Space;
use hv_vcpu::Vcpu;

impl<E: Emulator> Board<E> {
    /// How many harts and areas it has.
    pub fn layout(&self) -> Layout
        ensures { result ≡ self.now.layout }
    {
        self.layout
    }

    /// The part of a component.
    fn part(&self, x: CellId) -> &Part<E>
        requires whole { IsWhole E.state self.now }
        requires place { HasPlace self.now.layout x }
        ensures part { part_at self.now x ≡ Some result.now }
        ensures kind { IsPartOf x (valued E.state result.now) }
    {
        match &self.cells[self.layout.place_of(x)].part {
            Some(part) => part,
            None => unreachable!(),
        }
    }

    /// The directory of the guests.
    pub fn directory(&self) -> &Dir
        requires { IsWhole E.state self.now }
        ensures { part_at self.now component.Dir ≡ Some (part.Dir result.now) }
    {
        hv_parts::directory(self.part(CellId::Dir))
    }

    /// The devices that no guest has.
    pub fn shelf(&self) -> &ShelfOf<E>
        requires { IsWhole E.state self.now }
        ensures { part_at self.now component.Shelf ≡ Some (part.Shelf result.now) }
    {
        hv_parts::shelf(self.part(CellId::Shelf))
    }

    /// The file tree.
    pub fn files(&self) -> &FileTree
        requires { IsWhole E.state self.now }
        ensures { part_at self.now component.Files ≡ Some (part.Files result.now) }
    {
        hv_parts::files(self.part(CellId::Files))
    }

    /// The address space of the guest in a slot.
    pub fn space(&self, slot: u8) -> &Space
        requires whole { IsWhole E.state self.now }
        requires slot { slot < SLOTS }
        ensures { part_at self.now (component.Space slot) ≡ Some (part.Space result.now) }
    {
        hv_parts::space(self.part(CellId::Space(slot)))
    }

    /// The queue of a hart.
    pub fn queue(&self, hart: u8) -> &Queue
        requires whole { IsWhole E.state self.now }
        requires hart { hart < self.now.layout.harts }
        ensures { part_at self.now (component.Queue hart) ≡ Some (part.Queue result.now) }
    {
        hv_parts::queue(self.part(CellId::Queue(hart)))
    }

    /// The VCPU of a number.
    pub fn vcpu(&self, number: u8) -> &Vcpu
        requires whole { IsWhole E.state self.now }
        requires number { number < VCPUS }
        ensures { part_at self.now (component.Vcpu number) ≡ Some (part.Vcpu result.now) }
    {
        hv_parts::vcpu(self.part(CellId::Vcpu(number)))
    }

    /// The contents of a region, by slot and row.
    pub fn body(&self, slot: u8, row: u8) -> &BodyOf<E>
        requires whole { IsWhole E.state self.now }
        requires slot { slot < SLOTS }
        requires row { row < GUEST_REGIONS }
        ensures { part_at self.now (component.Body slot row) ≡ Some (part.Body result.now) }
    {
        hv_parts::body(self.part(CellId::Body(slot, row)))
    }

    /// The area of a number.
    pub fn area(&self, number: u8) -> &Area
        requires whole { IsWhole E.state self.now }
        requires number { number < self.now.layout.areas }
        ensures { part_at self.now (component.Area number) ≡ Some (part.Area result.now) }
    {
        hv_parts::area(self.part(CellId::Area(number)))
    }
}
