//! The timer and software interrupts of up to four VCPUs, with the registers of the SiFive CLINT.
//!
//! Terms: mtime is the time; context i is that of VCPU i, with msip, which is its software pin, and
//! mtimecmp, the time from which its timer pin is high; a half is the low or the high 4 bytes of a
//! register of 8 bytes.
#![tactic(auto)]

mod part;
mod register;
mod timer;

pub use timer::Timer;

#[cfg(test)]
mod tests;
