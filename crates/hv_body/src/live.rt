//! Live regions.
ghost use Rattle.std.specs.Prelude.{◌≡◌, ◌+◌, ◌^◌, ◌<◌, ◌≤◌, Some, IfSome};
ghost use Rattle.hv_body.specs.Windows.{offset_of};
ghost use Rattle.hv_body.specs.Body.{seen, fetch_answer, load_answer, load_leaves, store_answer, store_leaves, with_window, without_window};
ghost use Rattle.hv_body.specs.Rules.{FitsAnswer, IsLive, ReachesTo};

use crate::contents::Contents;
use crate::place::{Answer, Place};
use crate::window::{is_new_owner, lies_within, put, window_for};
use hv_emu::Emulator;
use hv_region::{RegionPlan, Window, WindowList};

/// A region that is live.
#[derive(Drop)]
pub struct Live<E> {
    /// The birth of its guest.
    pub birth: u64,
    pub plan: RegionPlan,
    pub contents: Contents<E>,
    /// The windows that reach it.
    pub windows: WindowList,
}

impl<E: Emulator> Live<E> {
    /// Where in the region an access begins.
    fn offset_of(&self, place: Place) -> Option<u64>
        requires rules { IsLive self.now }
        requires some { 1 ≤ place.size }
        ensures value { result ≡ offset_of self.now.windows place }
        ensures within { IfSome result (λ offset. ReachesTo self.now.contents (offset + place.size)) }
    {
        // No window ends behind the region, so no sum passes its size.
        let _size = self.plan.size;
        let Some(window) = window_for(&self.windows, place) else {
            return None;
        };
        Some(place.addr - window.base + window.offset)
    }

    pub fn fetch(&self, place: Place) -> Answer
        requires rules { IsLive self.now }
        requires some { 1 ≤ place.size }
        requires few { place.size ≤ 8 }
        ensures value { result ≡ fetch_answer (Some self.now) place }
        ensures fits { FitsAnswer place.size result }
    {
        match self.offset_of(place) {
            Some(offset) => self.contents.fetch(offset, place.size),
            None => Answer::NotHere,
        }
    }

    pub fn read(&mut self, place: Place) -> Answer
        requires rules { IsLive self.old }
        requires some { 1 ≤ place.size }
        requires few { place.size ≤ 8 }
        ensures answer { result ≡ load_answer (seen E.state (Some self.old)) place }
        ensures left { seen E.state (Some self.new)
            ≡ load_leaves (seen E.state (Some self.old)) place }
        ensures rules { IsLive self.new }
    {
        match self.offset_of(place) {
            Some(offset) => self.contents.read(offset, place.size),
            None => Answer::NotHere,
        }
    }

    pub fn write(&mut self, place: Place, value: u64) -> Answer
        requires rules { IsLive self.old }
        requires some { 1 ≤ place.size }
        requires few { place.size ≤ 8 }
        requires fits { value < 256 ^ place.size }
        ensures answer { result ≡ store_answer (seen E.state (Some self.old)) place value }
        ensures left { seen E.state (Some self.new)
            ≡ store_leaves (seen E.state (Some self.old)) place value }
        ensures rules { IsLive self.new }
    {
        match self.offset_of(place) {
            Some(offset) => self.contents.write(offset, place.size, value),
            None => Answer::NotHere,
        }
    }

    /// Adds a window where that may be done.
    pub fn add_window(&mut self, window: Window)
        requires { IsLive self.old }
        ensures value { Some self.new ≡ with_window (Some self.old) window }
        ensures rules { IsLive self.new }
    {
        if window.birth == self.birth
            && is_new_owner(&self.windows, &window)
            && lies_within(self.plan.size, &window)
        {
            put(&mut self.windows, window);
        }
    }

    /// Takes the window of a region away.
    pub fn remove_window(&mut self, owner: u8)
        requires { IsLive self.old }
        ensures value { Some self.new ≡ without_window (Some self.old) owner }
        ensures rules { IsLive self.new }
    {
        self.windows.remove_owner(owner);
    }
}
