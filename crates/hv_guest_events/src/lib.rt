//! Steps on guests made on a board, and those that actors owe: each call makes exactly one event, or
//! none.
//!
//! Terms: the own stamp is that of the actor that makes the step; an event is held up where memory
//! runs out, or the greatest stamp of what it touches is the last one; a step by guest is granted
//! where the directory gives the guest that the step shows, and refused else.
#![tactic(auto)]

mod devices;
mod directory;
mod listing;
mod owed;
mod refusals;
#[cfg(test)]
mod tests;

pub use devices::device_event;
pub use directory::directory_event;
pub use listing::regions_event;
pub use owed::owed_event;
pub use refusals::refused_event;
