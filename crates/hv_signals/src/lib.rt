//! The signals of a region's body: what it drives, what changes of it, and where it goes.
//!
//! Terms: a body is the contents of a region while the region is live; its signals are the level of
//! its interrupt line and the levels of the pins of each VCPU of its guest; its parent is the region
//! that takes its interrupts.
#![tactic(auto)]

mod link;
mod signals;
#[cfg(test)]
mod tests;

pub use link::{is_born, parent_of};
pub use signals::{Signals, changes};
