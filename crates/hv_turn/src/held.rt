//! The guard of a history lock.
ghost use Rattle.std.specs.Prelude.{◌≡◌};
ghost use Rattle.std.specs.Borrow.{Lends, sem};

use crate::standing::Standing;
use std::marker::Model;

/// The value of a history lock, while one handle is inside. It can't be dropped: `leave` takes it.
pub struct Held<T> {
    pub(crate) value: T,
}

impl<T> Model for Held<T> {
    ghost Value = { T };

    ghost view = { λ h. h.value };
}

impl<T: Standing> Held<T> {
    ghost use Rattle.hv_turn.specs.contracts.held.Held.{the_row as held_row};

    pub fn value(&self) -> &T
        ensures { result.now ≡ self.now }
    {
        &self.value
    }

    /// The value, to be changed; `leave` says what may become of its history.
    pub fn value_mut(&mut self) -> &mut T
        ensures* writes_back { sem 𝓛 (Lends (held_row T.row) T.row self.entry result (λ w. w)) }
        ensures value { result.now ≡ self.old }
    {
        &mut self.value
    }
}
