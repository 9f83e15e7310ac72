//! What a look at a VCPU shows, its words, and looks read from words.
//!
//! Terms: pc is the address of the next instruction; x1 to x31 are the registers that may be written;
//! a CSR is a control and status register, whose value is the one that a read gives.
#![tactic(auto)]

mod boxed;
mod look;
mod print;
mod read;

pub use boxed::BoxedLook;
pub use look::{Csrs, Look, Registers};
pub use print::print_look;
pub use read::{looks_are_unambiguous, looks_have_no_space, read_look};

#[cfg(test)]
mod tests;
