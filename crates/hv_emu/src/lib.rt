//! What a device emulator is, by the state of its device.
//!
//! Terms: a context is what a device keeps per VCPU, context i for VCPU i; an access is a load or a
//! store of some bytes at an offset in the device, and is denied where the device answers none; a
//! pin is an interrupt input of a VCPU; a source is an interrupt input of a controller, and a line
//! the interrupt output of a device.
#![tactic(auto)]

mod boxed;
mod emulator;

pub use emulator::Emulator;
pub use hv_kinds::Pins;
