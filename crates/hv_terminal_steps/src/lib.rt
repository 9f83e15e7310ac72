//! The steps of terminals at the components that they touch, which stand in one list.
//!
//! Terms: parts are components of any kind, in the order in which a step locks them; a step by guest
//! begins at the directory, which admits it where the guest is there at the stage that the step
//! needs; a home is the queue to which a VCPU goes that becomes ready; the components of a case are
//! those that a step touches there.
#![tactic(auto)]

mod arrivals;
mod departures;
mod files;
mod places;
mod queues;
#[cfg(test)]
mod tests;
mod vcpus;

pub use arrivals::{kick_at, resume_at};
pub use departures::{halt_at, pause_at, reset_at, vdrop_at};
pub use files::files_at;
pub use vcpus::{look_at, vadd_at};
