//! Control and status registers, traps and interrupts in machine mode.
#![tactic(auto)]

mod csr;
mod entry;
mod instructions;
pub mod registers;
#[cfg(test)]
mod tests;

pub use csr::mstatus;
pub use entry::{choose, trap};
pub use instructions::system;
