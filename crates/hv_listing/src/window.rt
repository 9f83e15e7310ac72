//! Windows as `regions` lists them.
ghost use Rattle.std.specs.Prelude.{◌≡◌};

use hv_kinds::AddressType;
use std::marker::Model;

/// A window of a guest's address space.
#[derive(Clone, Copy, Debug, PartialEq, Eq)]
pub struct ListedWindow {
    /// The row of the region that the window belongs to.
    pub owner: u8,
    /// The row of the region whose contents the window shows.
    pub target: u8,
    pub address_type: AddressType,
    /// The first address.
    pub base: u64,
    /// In bytes.
    pub size: u64,
    /// Where the window begins in the target, in bytes.
    pub offset: u64,
}

/// Windows, which contracts see as a list.
#[derive(Debug, Drop)]
pub struct WindowList {
    items: Vec<ListedWindow>,
}

impl Model for WindowList {
    ghost use Rattle.std.specs.Prelude.{List};
    ghost use Rattle.hv_listing.specs.declared.window.ListedWindow.{ListedWindow};

    ghost Value = { List ListedWindow };

    ghost view = { λ w. w.items.items };
}

impl WindowList {
    /// These windows.
    pub fn from_vec(items: Vec<ListedWindow>) -> WindowList
        ensures { result ≡ items.items }
    {
        WindowList { items }
    }

    /// The windows as a slice.
    pub fn as_slice(&self) -> &[ListedWindow]
        ensures { result.now ≡ self.now }
    {
        &self.items
    }
}
