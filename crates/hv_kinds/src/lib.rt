//! The small kinds that all crates share: of addresses, stages, states, signals, limits and causes.
//! generation: a guest's slot with its birth, the number of guests that were claimed before
//! pins: the levels of a hart's external, software and timer interrupt
#![tactic(auto)]

mod access;
mod address;
mod cause;
mod changes;
mod generation;
mod limit;
mod pins;
mod stage;
mod state;

pub use access::{AccessKind, Direction};
pub use address::AddressType;
pub use cause::Cause;
pub use changes::SignalChanges;
pub use generation::Generation;
pub use limit::LimitName;
pub use pins::Pins;
pub use stage::Stage;
pub use state::{State, StateName};

#[cfg(test)]
mod tests;
