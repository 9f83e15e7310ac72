//! The components of a board on one thread.
//!
//! Terms: a cell holds a component, with the stamp of the last event that touched it; its place is
//! where it stands among the cells, in the order of locks.
#![tactic(auto)]

mod board;
mod carry;
mod cell;
mod close;
mod event;
mod layout;
mod lifted;
mod log;
mod logging;
mod open;
mod places;
mod read;
mod stop;
#[cfg(test)]
mod tests;

pub use board::Board;
pub use carry::{lift_all, put_all};
pub use cell::Cell;
pub use close::close_board;
pub use layout::Layout;
pub use lifted::Lifted;
pub use log::Log;
pub use open::open_board;
pub use stop::Stop;
