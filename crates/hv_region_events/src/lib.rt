//! Regions of guests that are added and dropped on a board: each call makes exactly one event, or
//! none.
//!
//! Terms: the own stamp is that of the actor that makes the step; an event is held up where memory
//! runs out, or the greatest stamp of what it touches is the last one; an alias is a window to
//! another region, its target; which case of a step holds is read from the board before.
#![tactic(auto)]

mod adding;
mod removal;

pub use adding::add_event;
pub use removal::drop_event;
