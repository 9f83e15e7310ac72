//! What a bundle's host tree says: the host's settings, and each guest's plan or its first fault.
//!
//! Terms: the host tree is the device tree source that describes the board; without one the host has
//! its defaults, no areas and no guests.
#![tactic(auto)]

mod board;
mod law;
mod read;
mod refusal;

pub use board::Board;
pub use hv_region::Fault;
pub use law::host_trees_are_unambiguous;
pub use read::read_board;
pub use refusal::BoardRefusal;

#[cfg(test)]
mod tests;
