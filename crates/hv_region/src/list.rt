//! The windows of a guest.
ghost use Rattle.std.specs.Prelude.{◌≡◌, ◌≢◌, ◌<◌, ◌≤◌, ◌↔◌, [], length, All, IfOk, MatchOption, IsTrue, slice_get};
ghost use Rattle.hv_region.specs.Windows.{AreWindows, Meets, IsInRange, HasNone, IsLesserOf, Adds, Finds, FindsTarget, IsLeastMet, IsPlaceFor, without_owner, without_target};

use crate::window::{RegionRefusal, Window};
use hv_kinds::AddressType;
use std::alloc::{AllocError, Global};
use std::marker::Model;

/// How many windows there is room for from the start.
const ROOM: usize = 16;

/// Windows that contracts see as a list, memory first and by their addresses.
#[derive(Debug, Drop)]
pub struct WindowList {
    items: Vec<Window>,
}

impl Model for WindowList {
    ghost use Rattle.std.specs.Prelude.{◌≤◌, List, vec_capacity};
    ghost use Rattle.hv_region.specs.declared.window.Window.{Window};
    ghost use Rattle.hv_region.specs.Windows.{AreWindows};

    ghost Value = { List Window };

    ghost view = { λ list. list.items.items };

    ghost invariant = { λ list. AreWindows list.items.items × (16 ≤ vec_capacity list.items) };
}

impl WindowList {
    pub fn new(alloc: Global) -> Result<WindowList, AllocError>
        ensures { IfOk result (λ windows. windows ≡ []) }
    {
        Ok(WindowList {
            items: Vec::with_capacity(alloc, ROOM)?,
        })
    }

    /// Adds a window of a region that has none.
    pub fn add(&mut self, window: Window) -> Result<(), RegionRefusal>
        requires some { 1 ≤ window.size }
        requires owner { window.owner < 16 }
        requires free { HasNone self.old window.owner }
        ensures { Adds self.old window result self.new }
    {
        if !window.is_in_range() {
            return Err(RegionRefusal::OutOfRange);
        }
        if let Some(owner) = least_met(self.items.as_slice(), &window) {
            return Err(RegionRefusal::Overlap(owner));
        }
        let place = place_for(self.items.as_slice(), &window);
        let placed = self.items.insert(place, window);
        drop(placed);
        Ok(())
    }

    /// Takes the window of an owner away.
    pub fn remove_owner(&mut self, owner: u8)
        ensures { self.new ≡ without_owner owner self.old }
    {
        self.items.retain(|window| window.owner != owner);
    }

    /// Takes the windows that lead to a target away.
    pub fn remove_target(&mut self, target: u8)
        ensures { self.new ≡ without_target target self.old }
    {
        self.items.retain(|window| window.target != target);
    }

    /// The window at a place, counted from 0: memory first, and by the base.
    pub fn at(&self, place: usize) -> Option<Window>
        ensures at { result ≡ slice_get self.now place }
        ensures rules { AreWindows self.now }
    {
        self.items.get(place).copied()
    }

    /// The window that holds a whole range.
    pub fn find(&self, kind: AddressType, addr: u64, size: u64) -> Option<Window>
        ensures { Finds self.now kind addr size result }
    {
        for window in self.items.as_slice() {
            if window.holds(kind, addr, size) {
                return Some(*window);
            }
        }
        None
    }

    /// The window that holds a whole range and is no alias.
    pub fn alias_of(&self, kind: AddressType, addr: u64, size: u64) -> Result<Window, RegionRefusal>
        ensures { FindsTarget self.now kind addr size result }
    {
        for window in self.items.as_slice() {
            if window.owner == window.target && window.holds(kind, addr, size) {
                return Ok(*window);
            }
        }
        Err(RegionRefusal::AliasTarget)
    }
}

/// The least owner of a window that meets this one.
fn least_met(windows: &[Window], window: &Window) -> Option<u8>
    requires windows { AreWindows windows.now }
    requires window { IsInRange window.now }
    ensures { MatchOption result (All (λ there. Meets there window.now → ⊥) windows.now) (IsLeastMet windows.now window.now) }
{
    let mut least = None;
    for there in windows {
        if there.meets(window) {
            least = lesser(least, there.owner);
        }
    }
    least
}

/// The lesser of an owner and what was found before.
fn lesser(found: Option<u8>, owner: u8) -> Option<u8>
    ensures { IsLesserOf found owner result }
{
    match found {
        Some(least) => Some(least.min(owner)),
        None => Some(owner),
    }
}

/// Where a window belongs: behind those that begin before it.
fn place_for(windows: &[Window], window: &Window) -> usize
    requires windows { AreWindows windows.now }
    requires window { IsInRange window.now }
    ensures { IsPlaceFor windows.now window.now result }
{
    let start = window.start();
    for place in 0..windows.len() {
        if windows[place].start() >= start {
            return place;
        }
    }
    windows.len()
}
