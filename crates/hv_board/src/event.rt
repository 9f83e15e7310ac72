//! The parts of an event leave a board, and come back.
ghost use Rattle.std.specs.Prelude.{◌≡◌, ◌<◌, ◌≤◌, ℕ, [], All, Err, IfOk, OnErr, length, map, vec_capacity};
ghost use Rattle.std.specs.List.{AllByRecursion};
ghost use Rattle.hv_parts.specs.Kinds.{AreOf};
ghost use Rattle.hv_parts.specs.Takes.{IsMadeAt};
ghost use Rattle.hv_parts.specs.Value.{valued};
ghost use Rattle.hv_text.specs.declared.limits.TheConstants.{GREATEST_STAMP};
ghost use Rattle.hv_board.specs.Places.{HasPlace};
ghost use Rattle.hv_board.specs.Board.{AreInOrder, IsWhole, greatest_at};
ghost use Rattle.hv_board.specs.Carrying.{ArePut};
ghost use Rattle.hv_board.specs.Held.{IsRising};
ghost use Rattle.hv_board.specs.Holds.{HoldsAsBefore};
ghost use Rattle.hv_board.specs.Lifted.{IsLifted, IsNext, LeadsOn, entry_of};

use crate::board::Board;
use crate::carry::{lift_all, put_all};
use crate::lifted::Lifted;
use crate::places::list_places;
use crate::stop::Stop;
use hv_emu::Emulator;
use hv_event::{ActorId, CellId};
use hv_handed::Made;
use hv_parts::Part;
use hv_step::Step;
use hv_text::GREATEST_STAMP;
use std::mem;
use std::snapshot::Snapshot;

impl<E: Emulator> Board<E> {
    /// The greatest of an actor's stamp and of those of these components.
    fn greatest(&self, stamp: u64, xs: &[CellId]) -> u64
        requires whole { IsWhole E.state self.now }
        requires have { AllByRecursion (HasPlace self.now.layout) xs.now }
        ensures { result ≡ greatest_at self.now stamp xs.now }
    {
        let mut top = stamp;
        for x in xs {
            top = top.max(self.cells[self.layout.place_of(*x)].stamp);
        }
        top
    }

    /// Takes the parts of these components out for an event, whose actor has a stamp.
    pub fn lift(&mut self, stamp: u64, xs: &[CellId]) -> Result<Lifted<E>, Stop>
        requires whole { IsWhole E.state self.old }
        requires order { AreInOrder self.old.layout xs.now }
        requires bounded { stamp ≤ GREATEST_STAMP }
        ensures lifted { IfOk result (λ lifted. IsLifted E.state xs.now lifted self.new) }
        ensures next { IfOk result (λ lifted. IsNext E.state stamp xs.now self.old lifted) }
        ensures spent { OnErr result ((greatest_at self.old stamp xs.now ≡ GREATEST_STAMP)
            × (self.new ≡ self.old) × (result ≡ Err (Stop.Spent GREATEST_STAMP))) }
    {
        let top = self.greatest(stamp, xs);
        if top == GREATEST_STAMP {
            return Err(Stop::Spent(top));
        }
        Ok(self.take_out(top + 1, xs))
    }

    /// Takes the parts of these components out for an event of this stamp.
    fn take_out(&mut self, stamp: u64, xs: &[CellId]) -> Lifted<E>
        requires whole { IsWhole E.state self.old }
        requires order { AreInOrder self.old.layout xs.now }
        requires bounded { stamp ≤ GREATEST_STAMP }
        ensures lifted { IsLifted E.state xs.now result self.new }
        ensures stamp { result.stamp ≡ stamp }
        ensures parts { result.parts.items ≡ result.were.value.items }
        ensures kinds { AreOf xs.now (map (valued E.state) result.parts.items) }
        ensures before { result.before.value ≡ self.old }
    {
        let before = Snapshot::of(self);
        list_places(self.layout, xs, &mut self.places);
        let room = mem::replace(&mut self.room, Vec::new(self.alloc));
        let (parts, _) = lift_all(
            self.cells.as_mut_slice(),
            self.places.as_slice(),
            stamp,
            room,
        );
        Lifted {
            were: Snapshot::of(&parts),
            parts,
            stamp,
            before,
        }
    }

    /// Puts the parts back, once a step was made at them.
    pub fn put(
        &mut self,
        lifted: Lifted<E>,
        by: ActorId,
        xs: &[CellId],
        step: &Step,
        made: &Made<E>,
    )
        requires lifted { IsLifted E.state xs.now lifted self.old }
        requires made { IsMadeAt E.state self.old.layout.harts by xs.now step.now made.now
            lifted.were.value.items lifted.parts.items }
        ensures whole { IsWhole E.state self.new }
        ensures layout { self.new.layout ≡ self.old.layout }
        ensures event { (index : ℕ) → LeadsOn E.state lifted.before.value self.new xs.now
            (entry_of E.state by index lifted.stamp step.now made.now) }
    {
        let _ = by;
        let _ = xs;
        let _ = step;
        let _ = made;
        self.put_parts(lifted.parts, Some(lifted.stamp));
    }

    /// Puts the parts back with the values that they had, without an event.
    pub fn put_back(&mut self, lifted: Lifted<E>, xs: &[CellId])
        requires lifted { IsLifted E.state xs.now lifted self.old }
        requires same { map (valued E.state) lifted.parts.items
            ≡ map (valued E.state) lifted.were.value.items }
        ensures whole { IsWhole E.state self.new }
        ensures layout { self.new.layout ≡ lifted.before.value.layout }
        ensures holds { HoldsAsBefore E.state lifted.before.value self.new }
    {
        let _ = xs;
        self.put_parts(lifted.parts, None);
    }

    /// Puts parts into the cells whose parts are out.
    fn put_parts(&mut self, parts: Vec<Part<E>>, stamp: Option<u64>)
        requires long { length parts.items ≡ length self.old.places.items }
        requires places { IsRising self.old.places.items
            × All (λ k. k < length self.old.cells.items) self.old.places.items }
        ensures put { ArePut stamp self.old.places.items parts.items self.old.cells.items
            self.new.cells.items }
        ensures layout { self.new.layout ≡ self.old.layout }
        ensures places { self.new.places ≡ self.old.places }
        ensures empty { self.new.room.items ≡ [] }
        ensures room { vec_capacity self.new.room ≡ vec_capacity parts }
    {
        self.room = put_all(
            self.cells.as_mut_slice(),
            self.places.as_slice(),
            parts,
            stamp,
        );
    }
}
