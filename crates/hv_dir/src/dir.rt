//! The directory of the guests.
ghost use Rattle.std.specs.Prelude.{◌≡◌, ◌≢◌, ◌<◌, Some, Ok, Err, None, IfOk, IfErr, OnOk, OnErr, IfSome, is_none, position};
ghost use Rattle.std.specs.Option.{option_and_then, option_copied};
ghost use Rattle.hv_dir.specs.Directory.{AreEntries, no_guests, entry_at, entry_of, slot_of, free_slot, is_named, is_stage, at_next, claimed, guest_at, turned, IsDueOrMemory};
ghost use Rattle.hv_text.specs.declared.limits.TheConstants.{SLOTS};
ghost use Rattle.hv_dir.specs.declared.refusal.DirRefusal.TheVariants.{Memory};

use crate::entry::Entry;
use crate::refusal::DirRefusal;
use hv_kinds::Stage;
use hv_text::{Bytes, SLOTS};
use std::alloc::{AllocError, Global};
use std::array;
use std::marker::Model;

/// The guests of a board by their slots. Contracts see the entry of each slot and the number of
/// claims granted.
#[derive(Drop)]
pub struct Dir {
    entries: [Option<Entry>; SLOTS],
    granted: u64,
}

impl Model for Dir {
    ghost use Rattle.hv_dir.specs.Directory.{DirState, AreEntries};

    ghost Value = { DirState };

    ghost view = { λ d. record { entries = d.entries; granted = d.granted } };

    ghost invariant = { λ d. AreEntries d.entries };
}

impl Dir {
    /// No guests.
    pub fn new() -> Dir
        ensures { result ≡ no_guests }
    {
        Dir {
            entries: array::from_fn(
                |_|
                    ensures { result ≡ None }
                { None },
            ),
            granted: 0,
        }
    }

    /// The entry of a slot.
    pub fn at_slot(&self, slot: u8) -> Option<&Entry>
        ensures entry { option_copied result ≡ entry_at self.now slot }
        ensures slot { IfSome result (λ entry. entry.now.slot ≡ slot) }
        ensures entries { AreEntries self.now.entries }
    {
        match self.entries.get(slot as usize) {
            Some(entry) => entry.as_ref(),
            None => None,
        }
    }

    /// The slot of the guest with a name.
    fn slot_of(&self, name: &[u8]) -> Option<usize>
        ensures value { result ≡ slot_of self.now name.now }
        ensures within { IfSome result (λ slot. slot < SLOTS) }
    {
        self.entries.iter().position(|entry| is_named(entry, name))
    }

    /// The least slot that is free.
    fn free_slot(&self) -> Option<usize>
        ensures value { result ≡ free_slot self.now }
        ensures within { IfSome result (λ slot. slot < SLOTS) }
    {
        self.entries.iter().position(|entry| entry.is_none())
    }

    /// The entry of the guest with a name.
    fn entry_of(&self, name: &[u8]) -> Option<&Entry>
        ensures value { option_copied result ≡ entry_of self.now name.now }
        ensures within { IfSome result (λ entry. entry.now.slot < SLOTS) }
    {
        match self.slot_of(name) {
            Some(slot) => self.entries[slot].as_ref(),
            None => None,
        }
    }

    /// Gives a new guest, whose making begins, the least free slot. Gives the slot and the birth.
    /// `NameUsed` comes before `NoSlot`. A count of claims that is at its end is want of memory.
    pub fn claim(&mut self, alloc: Global, name: &[u8]) -> Result<(u8, u64), DirRefusal>
        ensures ok { IfOk result (λ guest. claimed self.old name.now ≡ Ok (self.new, guest)) }
        ensures slot { IfOk result (λ guest. guest.0 < SLOTS) }
        ensures refused { IfErr result (IsDueOrMemory (claimed self.old name.now)) }
        ensures err { OnErr result (self.new ≡ self.old) }
    {
        if self.slot_of(name).is_some() {
            return Err(DirRefusal::NameUsed);
        }
        let Some(slot) = self.free_slot() else {
            return Err(DirRefusal::NoSlot);
        };
        let birth = self.granted;
        let Some(granted) = birth.checked_add(1) else {
            return Err(DirRefusal::Memory(AllocError));
        };
        let name = Bytes::from_vec(Vec::from_slice(alloc, name)?);
        let number = slot as u8;
        self.entries[slot] = Some(Entry {
            name,
            slot: number,
            birth,
            stage: Stage::Making,
        });
        self.granted = granted;
        Ok((number, birth))
    }

    /// The slot and the birth of the guest with a name, which must be at a stage.
    pub fn at(&self, name: &[u8], stage: Stage) -> Result<(u8, u64), DirRefusal>
        ensures ok { IfOk result (λ guest. guest_at self.now name.now stage ≡ Ok guest) }
        ensures slot { IfOk result (λ guest. guest.0 < SLOTS) }
        ensures refused { IfErr result (λ why. guest_at self.now name.now stage ≡ Err why) }
        ensures no_memory { (e : AllocError) → result ≢ Err (Memory e) }
    {
        let Some(entry) = self.entry_of(name) else {
            return Err(DirRefusal::NoSuchGuest);
        };
        if !is_stage(entry.stage, stage) {
            return Err(DirRefusal::GuestState(entry.stage));
        }
        Ok((entry.slot, entry.birth))
    }

    /// Turns the guest with a name, which must be at a stage, to another stage, or lets its slot
    /// go.
    pub fn turn_to(&mut self, name: &[u8], from: Stage, to: Option<Stage>) -> Result<(), DirRefusal>
        ensures ok { OnOk result (turned self.old name.now from to ≡ Ok self.new) }
        ensures refused { IfErr result (λ why. turned self.old name.now from to ≡ Err why) }
        ensures err { OnErr result (self.new ≡ self.old) }
        ensures no_memory { (e : AllocError) → result ≢ Err (Memory e) }
    {
        let (slot, _) = self.at(name, from)?;
        turn_entry(&mut self.entries[slot as usize], to);
        Ok(())
    }
}

/// Whether a slot is that of the guest with a name.
fn is_named(entry: &Option<Entry>, name: &[u8]) -> bool
    ensures { result ≡ is_named name.now entry.now }
{
    match entry {
        Some(entry) => entry.name.as_slice() == name,
        None => false,
    }
}

/// Whether two stages are the same.
fn is_stage(one: Stage, other: Stage) -> bool
    ensures { result ≡ is_stage one other }
{
    one == other
}

/// Turns an entry to its next stage, or lets its slot go.
fn turn_entry(entry: &mut Option<Entry>, next: Option<Stage>)
    ensures { entry.new ≡ option_and_then (at_next next) entry.old }
{
    match next {
        Some(stage) => {
            if let Some(entry) = entry {
                entry.stage = stage;
            }
        }
        None => *entry = None,
    }
}
