//! Looks: the state and the registers of a VCPU.
use hv_kinds::State;

/// The control and status registers of a VCPU.
#[derive(Clone, Copy, Debug)]
pub struct Csrs {
    pub mstatus: u64,
    pub mie: u64,
    pub mtvec: u64,
    pub mscratch: u64,
    pub mepc: u64,
    pub mcause: u64,
    pub mtval: u64,
}

/// The registers of a VCPU.
#[derive(Clone, Copy, Debug)]
pub struct Registers {
    pub pc: u64,
    /// x1 to x31.
    pub x: [u64; 31],
    pub csrs: Csrs,
}

/// What a look at a VCPU shows.
#[derive(Clone, Copy, Debug)]
pub struct Look {
    pub state: State,
    pub priority: u8,
    pub slice: u32,
    pub registers: Registers,
}
