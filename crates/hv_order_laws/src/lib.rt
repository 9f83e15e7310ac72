//! Laws of terminals' lines: who owns a guest that is made or ended.
#![tactic(auto)]

mod laws;

pub use laws::{legal_histories_are_in_order, lines_own_their_guests, runs_are_in_order};
