//! What a step hands from one component to another, as code has it, and when a component takes a step.
#![tactic(auto)]

mod carry;
mod hands;
mod pending;
mod told;

pub use carry::{Carry, Handed};
pub use hands::{hand_nothing, hand_region};
pub use pending::Pending;
pub use told::{Made, Told};
