//! Laws of the words of lists.
ghost use Rattle.std.specs.Prelude.{◌≡◌, List};
ghost use Rattle.hv_text.specs.Front.{IsFree};
ghost use Rattle.hv_listing.specs.declared.guest.ListedGuest.{ListedGuest};
ghost use Rattle.hv_listing.specs.declared.window.ListedWindow.{ListedWindow};
ghost use Rattle.hv_listing.specs.Listing.{guests_text, windows_text, AreGuests, AreWindows};

/// Two lists of one word are one list.
pub fn lists_are_unambiguous()
    ensures guests { (one other : List ListedGuest)
        → AreGuests one → AreGuests other → guests_text one ≡ guests_text other → one ≡ other }
    ensures windows { (one other : List ListedWindow)
        → AreWindows one → AreWindows other → windows_text one ≡ windows_text other → one ≡ other }
{}

/// The word of a list has no space.
pub fn lists_have_no_space()
    ensures guests { (guests : List ListedGuest) → AreGuests guests → IsFree 32 (guests_text guests) }
    ensures windows { (windows : List ListedWindow) → AreWindows windows → IsFree 32 (windows_text windows) }
{}
