//! The steps of harts at the components that they touch, which stand in one list.
//!
//! Terms: parts are components of any kind, in the order in which a step locks them; a hart chooses its
//! step by reading components, and a step asks of its parts what allowed that choice; what the hart
//! learns of a step is told.
#![tactic(auto)]

mod balancing;
mod clocks;
mod faults;
mod lengths;
mod queues;
#[cfg(test)]
mod tests;
mod turns;
mod vcpus;

pub use balancing::balance_at;
pub use clocks::{tick_at, tick_nothing_at};
pub use faults::fault_at;
pub use turns::{dispatch_at, idle_at, preempt_at};
pub use vcpus::{leave_at, take_at};
