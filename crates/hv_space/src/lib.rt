//! The address space of a guest: its windows, and its clock.
//!
//! Terms: the clock of a guest is the region whose device counts the guest's time; it is live while
//! its region is there; its birth is the number that tells the uses of the guest's slot apart.
#![tactic(auto)]

mod space;
#[cfg(test)]
mod tests;

pub use space::Space;
