//! Tests of devices in the pool from which guests take them, and in the regions of guests.
//!
//! They stand here since pool and regions know of no kind of device, and no emulator knows of them.
#![tactic(auto)]

#[cfg(test)]
mod pool;
#[cfg(test)]
mod region;
