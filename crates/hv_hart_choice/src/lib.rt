//! Which step a hart makes next, as the components tell.
//! row: what the hart's own state says of its next step
//! window: a range of a guest's addresses that reaches a region
//! birth: the number that tells the uses of a guest's slot apart
#![tactic(auto)]

mod free;
mod running;
mod step;
#[cfg(test)]
mod tests;
mod waiting;

pub use free::choose_free;
pub use running::{choose_fetch, choose_running, choose_turn};
pub use step::HartStep;
pub use waiting::{choose_access, choose_waiting};
