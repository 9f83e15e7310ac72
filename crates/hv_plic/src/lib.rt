//! The platform-level interrupt controller of up to four VCPUs, by the RISC-V PLIC Specification.
//!
//! Terms: a source is an interrupt input, 1 to 31; context i is that of VCPU i; a source is pending
//! until a context claims it, and then in service until the context completes it; its level is that
//! of its signal.
#![tactic(auto)]

mod bits;
mod plic;
mod register;

pub use plic::Plic;

#[cfg(test)]
mod tests;
