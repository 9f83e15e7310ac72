//! What steps do to the contents of guests' regions, to areas and to address spaces.
//!
//! Terms: the body of a region is its contents while it is live; the clock of a guest is the region
//! whose device counts the guest's time; a window is a range of a guest's addresses that reaches a
//! body; a component takes a step where its rule agrees to it and it is left as the rule says; what
//! is handed over goes from one component to another, for contracts alone.
#![tactic(auto)]

mod clock;
mod device;
mod handed;
mod line;
mod reach;
#[cfg(test)]
mod tests;

pub use clock::{tick, tick_nothing};
pub use device::{devreset, feed, output};
pub use line::{pins_shown, sample};
pub use reach::{is_fault, memory_window, window_reached};
