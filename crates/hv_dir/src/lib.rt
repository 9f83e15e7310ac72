//! The guests of a board, and the devices that no guest has.
//!
//! Terms: the directory says which guest has which slot; a claim gives a new guest a slot; its
//! birth is the number of claims granted before it, which tells the uses of a slot apart; the
//! stage is how far a guest is made or taken down; the pool is the list of devices that no guest
//! has, from which a guest takes a device by the names that its device tree would accept.
#![tactic(auto)]

mod dir;
mod entry;
mod refusal;
mod shelf;
#[cfg(test)]
mod tests;

pub use dir::Dir;
pub use entry::Entry;
pub use refusal::DirRefusal;
pub use shelf::{NoEmulator, Shelf, ShelfOf};
