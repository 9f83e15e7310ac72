//! The states that the VCPUs of a board had, as a history tells them, printed.
//!
//! Terms: VCPU 0 begins in reset, and the others are unknown, which isn't told; a step leads to a
//! state where it changes the state of a VCPU.
#![tactic(auto)]

mod history;
mod led;
mod print;
#[cfg(test)]
mod tests;
mod vcpus;

pub use history::push_states;
pub use led::led_to;
pub use vcpus::VcpuStates;
