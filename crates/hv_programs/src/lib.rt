//! The programs of actors: the interrupt steps that an actor owes, what a hart keeps and makes
//! next, and where a terminal's line is among its steps.
//!
//! Terms: a sample carries a region's interrupt line to the region that takes its interrupts, its
//! parent; a pin step carries a region's pins to a VCPU; a line is one command of a terminal.
#![tactic(auto)]

mod ask;
mod copied;
mod hart;
mod laws;
mod line;
mod owed;
mod row;
#[cfg(test)]
mod tests;
mod verdict;

pub use ask::{Ask, Asked, Change};
pub use hart::HartProgram;
pub use laws::{harts_are_kept, harts_may_make_their_steps, harts_take_these_alone};
pub use line::{Line, given_vcpu};
pub use owed::{MOST_OWED, Owed, OwedStep};
pub use row::{Row, Running};
