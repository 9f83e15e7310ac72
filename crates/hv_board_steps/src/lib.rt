//! Steps made on a board on one thread: each call makes exactly one event, or none.
//!
//! Terms: the own stamp is that of the actor that makes the step; an event is held up where memory
//! runs out, or the greatest stamp of what it touches is the last one.
#![tactic(auto)]

mod arrival;
mod ending;
mod files;
mod happened;
mod plain;
mod slots;
#[cfg(test)]
mod tests;
mod touched;
mod vcpus;

pub use arrival::vadd_event;
pub use ending::finish;
pub use files::files_event;
pub use happened::Happened;
pub use plain::plain_event;
pub use slots::slot_of;
pub use vcpus::vcpus_event;
