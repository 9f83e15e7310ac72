//! The serial port NS16550A, by its data sheet, as a device that guests share a board with.
//!
//! Terms: a register is named as in the data sheet, IER, IIR and so on; the input is what was
//! received and not yet read, the output what was sent; the trigger level is how many received
//! bytes make an interrupt; an overrun is a received byte that found no room; the line is the
//! interrupt output.
#![tactic(auto)]

mod fcr;
mod ier;
mod interrupt;
mod lcr;
mod lsr;
mod mcr;
mod register;
#[cfg(test)]
mod tests;
mod uart;

pub use uart::Uart;
