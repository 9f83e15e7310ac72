//! The handles of a history lock.
ghost use Rattle.std.specs.Prelude.{◌≡◌};

use crate::rule::SeatView;
use crate::standing::Standing;
use atomic_table::Seat;
use std::marker::Model;

/// A handle of a history lock, which one thread at a time uses and which may move between threads.
///
/// Contracts see its lock, its number, whether it is inside, and the history that it has seen.
#[derive(Drop)]
pub struct Pass<T: Standing> {
    // The seat takes no bytes, and slices are indexed only where their elements have some.
    pub(crate) number: u32,
    pub(crate) seat: Seat<Option<T>, SeatView<T::Entry>>,
}

impl<T: Standing> Model for Pass<T> {
    ghost use Rattle.std.specs.Prelude.{◌≡◌};
    ghost use Rattle.hv_turn.specs.Passes.{PassView};
    ghost use Rattle.hv_turn.specs.Rule.{pass_view, IsPass, first_pass};

    ghost Value = { PassView T.Entry };

    ghost view = { λ p. pass_view p.seat.table_id p.seat.me };

    ghost invariant = { λ p. IsPass p.seat.me
        × (p.number ≡ (first_pass p.seat.me.0.passes).number) };
}

impl<T: Standing> Pass<T> {
    /// The number that entries name it by, counted from 0.
    pub fn number(&self) -> u32
        ensures { result ≡ self.now.number }
    {
        self.number
    }
}
