//! The VCPUs of a board: their states, and the instructions that they carry out.
//! move: what leads a VCPU from one state to another, from a command or a hart
//! waiting: paused by the instruction WFI until an interrupt that is enabled is pending
//! context: the registers and the control and status registers of a VCPU
//! birth: how many guests were claimed before the one that the VCPU belongs to
//! row: a region of the guest, by its index
#![tactic(auto)]

mod instruction;
mod moves;
mod table;
#[cfg(test)]
mod tests;
mod vcpu;

pub use moves::{Move, WrongState};
pub use vcpu::Vcpu;
