//! Guests as `guests` lists them.
ghost use Rattle.std.specs.Prelude.{◌≡◌};

use hv_kinds::Stage;
use hv_text::Bytes;
use std::marker::Model;

/// A guest of the directory.
#[derive(Debug, Drop)]
pub struct ListedGuest {
    pub name: Bytes,
    pub slot: u8,
    pub stage: Stage,
}

/// Guests, which contracts see as a list.
#[derive(Debug, Drop)]
pub struct GuestList {
    items: Vec<ListedGuest>,
}

impl Model for GuestList {
    ghost use Rattle.std.specs.Prelude.{List};
    ghost use Rattle.hv_listing.specs.declared.guest.ListedGuest.{ListedGuest};

    ghost Value = { List ListedGuest };

    ghost view = { λ g. g.items.items };
}

impl GuestList {
    /// These guests.
    pub fn from_vec(items: Vec<ListedGuest>) -> GuestList
        ensures { result ≡ items.items }
    {
        GuestList { items }
    }

    /// The guests as a slice.
    pub fn as_slice(&self) -> &[ListedGuest]
        ensures { result.now ≡ self.now }
    {
        &self.items
    }
}
