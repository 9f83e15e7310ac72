//! What a history lock guards: a value with a list of entries.
ghost use Rattle.std.specs.Prelude.{◌≡◌, ◌<◌, ◌≤◌, ℕ, List, Option, OnOk};

use std::alloc::{AllocError, Global};

/// A value with a history. Contracts see its entries, the number of the handle that each names, if
/// it names one, and how many entries more it has room for.
pub trait Standing: Drop {
    type Entry;

    ghost entries: { Self → List Self.Entry };

    ghost names: { Self.Entry → Option ℕ };

    ghost spare: { Self → ℕ };

    /// Makes room for one entry more.
    fn make_room(&mut self, alloc: Global) -> Result<(), AllocError>
        ensures same { entries self.new ≡ entries self.old }
        ensures kept { spare self.old ≤ spare self.new }
        ensures room { OnOk result (0 < spare self.new) };
}
