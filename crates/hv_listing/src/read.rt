//! Lists of guests and of windows read from words.
ghost use Rattle.std.specs.Prelude.{◌≡◌, [], ◌∷◌, List, ℕ, MatchResult};
ghost use Rattle.hv_kinds.specs.declared.stage.Stage.{Stage};
ghost use Rattle.hv_kinds.specs.declared.address.AddressType.{AddressType};
ghost use Rattle.hv_data.specs.Data.{Number8, Address, Name, At, TypeOf, HaveData};
ghost use Rattle.hv_data.specs.Reading.{Because, Reads};
ghost use Rattle.hv_listing.specs.declared.guest.ListedGuest.{ListedGuest};
ghost use Rattle.hv_listing.specs.declared.window.ListedWindow.{ListedWindow};
ghost use Rattle.hv_listing.specs.Listing.{guest_data, window_data, guest_text, window_text, guests_text, windows_text, IsGuest, IsWindow, AreGuests, AreWindows};
ghost use Rattle.hv_listing.specs.Reading.{BeginsWithEntry, HasNoEntries, ReadsEntry};

use crate::fields::entry_fields;
use crate::guest::{GuestList, ListedGuest};
use crate::window::{ListedWindow, WindowList};
use hv_data::{WordRefusal, take_address, take_address_type, take_name, take_number8, take_stage};
use hv_kinds::{AddressType, Stage};
use hv_text::{Bytes, strip_front};
use std::alloc::Global;

/// A guest's name, slot and stage.
fn take_guest(alloc: Global, words: &[Bytes]) -> Result<(Bytes, u8, Stage, &[Bytes]), WordRefusal>
    ensures { MatchResult result
        (λ found. HaveData words.now (Name found.0 ∷ Number8 found.1 ∷ At found.2 ∷ []) found.3.now)
        (λ e. Because e ((name : List ℕ) (slot : ℕ) (stage : Stage) (rest : List (List ℕ))
        → HaveData words.now (Name name ∷ Number8 slot ∷ At stage ∷ []) rest → ⊥)) }
{
    let (name, words) = take_name(alloc, words)?;
    let (slot, words) = take_number8(alloc, words)?;
    let (stage, words) = take_stage(words)?;
    Ok((name, slot, stage, words))
}

/// The guest of three words.
fn read_guest(alloc: Global, words: &[Bytes]) -> Result<ListedGuest, WordRefusal>
    ensures { ReadsEntry guest_data words.now result }
{
    let (name, slot, stage, rest) = take_guest(alloc, words)?;
    if !rest.is_empty() {
        return Err(WordRefusal::BadWord);
    }
    Ok(ListedGuest { name, slot, stage })
}

/// The guest at the front of a text, and the rest.
fn next_guest(alloc: Global, text: &[u8]) -> Result<(ListedGuest, &[u8]), WordRefusal>
    ensures { MatchResult result
        (λ found. BeginsWithEntry IsGuest guest_text text.now found.0 found.1.now)
        (λ e. Because e ((guest : ListedGuest) (rest : List ℕ)
        → BeginsWithEntry IsGuest guest_text text.now guest rest → ⊥)) }
{
    let (fields, rest) = entry_fields(alloc, text, 3)?;
    let guest = read_guest(alloc, &fields)?;
    Ok((guest, rest))
}

/// The guests of a text that has at least one.
fn some_guests(alloc: Global, text: &[u8]) -> Result<Vec<ListedGuest>, WordRefusal>
    ensures { MatchResult result
        (λ guests. AreGuests guests.items × (text.now ≡ guests_text guests.items))
        (λ e. Because e (HasNoEntries IsGuest guest_text text.now)) }
{
    let mut guests = Vec::new(alloc);
    let (first, mut rest) = next_guest(alloc, text)?;
    guests.push(first)?;
    while let Some(behind) = strip_front(rest, b",") {
        let (guest, further) = next_guest(alloc, behind)?;
        guests.push(guest)?;
        rest = further;
    }
    Ok(guests)
}

/// The guests of a word.
pub fn guests_word(alloc: Global, word: &[u8]) -> Result<GuestList, WordRefusal>
    ensures { Reads AreGuests guests_text word.now result }
{
    if word == b"-".as_slice() {
        return Ok(GuestList::from_vec(Vec::new(alloc)));
    }
    Ok(GuestList::from_vec(some_guests(alloc, word)?))
}

/// The rows of a window's owner and target, and its type.
fn take_rows(alloc: Global, words: &[Bytes]) -> Result<(u8, u8, AddressType, &[Bytes]), WordRefusal>
    ensures { MatchResult result
        (λ found. HaveData words.now
        (Number8 found.0 ∷ Number8 found.1 ∷ TypeOf found.2 ∷ []) found.3.now)
        (λ e. Because e ((owner target : ℕ) (t : AddressType) (rest : List (List ℕ))
        → HaveData words.now (Number8 owner ∷ Number8 target ∷ TypeOf t ∷ []) rest → ⊥)) }
{
    let (owner, words) = take_number8(alloc, words)?;
    let (target, words) = take_number8(alloc, words)?;
    let (address_type, words) = take_address_type(words)?;
    Ok((owner, target, address_type, words))
}

/// A window's base, its size, and its offset in the target.
fn take_place(alloc: Global, words: &[Bytes]) -> Result<(u64, u64, u64, &[Bytes]), WordRefusal>
    ensures { MatchResult result
        (λ found. HaveData words.now
        (Address found.0 ∷ Address found.1 ∷ Address found.2 ∷ []) found.3.now)
        (λ e. Because e ((base size offset : ℕ) (rest : List (List ℕ))
        → HaveData words.now (Address base ∷ Address size ∷ Address offset ∷ []) rest → ⊥)) }
{
    let (base, words) = take_address(alloc, words)?;
    let (size, words) = take_address(alloc, words)?;
    let (offset, words) = take_address(alloc, words)?;
    Ok((base, size, offset, words))
}

/// The window of six words.
fn read_window(alloc: Global, words: &[Bytes]) -> Result<ListedWindow, WordRefusal>
    ensures { ReadsEntry window_data words.now result }
{
    let (owner, target, address_type, words) = take_rows(alloc, words)?;
    let (base, size, offset, words) = take_place(alloc, words)?;
    if !words.is_empty() {
        return Err(WordRefusal::BadWord);
    }
    Ok(ListedWindow {
        owner,
        target,
        address_type,
        base,
        size,
        offset,
    })
}

/// The window at the front of a text, and the rest.
fn next_window(alloc: Global, text: &[u8]) -> Result<(ListedWindow, &[u8]), WordRefusal>
    ensures { MatchResult result
        (λ found. BeginsWithEntry IsWindow window_text text.now found.0 found.1.now)
        (λ e. Because e ((window : ListedWindow) (rest : List ℕ)
        → BeginsWithEntry IsWindow window_text text.now window rest → ⊥)) }
{
    let (fields, rest) = entry_fields(alloc, text, 6)?;
    let window = read_window(alloc, &fields)?;
    Ok((window, rest))
}

/// The windows of a text that has at least one.
fn some_windows(alloc: Global, text: &[u8]) -> Result<Vec<ListedWindow>, WordRefusal>
    ensures { MatchResult result
        (λ windows. AreWindows windows.items × (text.now ≡ windows_text windows.items))
        (λ e. Because e (HasNoEntries IsWindow window_text text.now)) }
{
    let mut windows = Vec::new(alloc);
    let (first, mut rest) = next_window(alloc, text)?;
    windows.push(first)?;
    while let Some(behind) = strip_front(rest, b",") {
        let (window, further) = next_window(alloc, behind)?;
        windows.push(window)?;
        rest = further;
    }
    Ok(windows)
}

/// The windows of a word.
pub fn windows_word(alloc: Global, word: &[u8]) -> Result<WindowList, WordRefusal>
    ensures { Reads AreWindows windows_text word.now result }
{
    if word == b"-".as_slice() {
        return Ok(WindowList::from_vec(Vec::new(alloc)));
    }
    Ok(WindowList::from_vec(some_windows(alloc, word)?))
}
