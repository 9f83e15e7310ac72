//! Files that are loaded into the memory of guests, and looks at it, on a board: each call makes
//! exactly one event, or none.
//!
//! Terms: the own stamp is that of the actor that makes the step; an event is held up where memory
//! runs out, or the greatest stamp of what it touches is the last one; a step reaches the body that
//! a window leads to, and the area of the host of which a real region shows a part there; what it
//! reaches is read from the board before.
#![tactic(auto)]

mod loads;
mod looks;
mod reached;
#[cfg(test)]
mod tests;

pub use loads::load_event;
pub use looks::mem_event;
