//! The control and status registers of machine mode: their numbers (Privileged Architecture, 2.2,
//! table "Currently allocated RISC-V machine-level CSR addresses"), and the bits of mstatus (3.1.6)
//! and of mie and mip (3.1.9).

pub const MSTATUS: u16 = 0x300;

pub const MIE: u16 = 0x304;

pub const MTVEC: u16 = 0x305;

pub const MSCRATCH: u16 = 0x340;

pub const MEPC: u16 = 0x341;

pub const MCAUSE: u16 = 0x342;

pub const MTVAL: u16 = 0x343;

pub const MIP: u16 = 0x344;

pub const MHARTID: u16 = 0xf14;

/// The bit MIE of mstatus: interrupts are taken.
pub const MSTATUS_MIE: u32 = 3;

/// The bit MPIE of mstatus: MIE as it was before the trap.
pub const MSTATUS_MPIE: u32 = 7;

/// The lower of the two bits MPP of mstatus: the mode before the trap.
pub const MSTATUS_MPP: u32 = 11;

/// Machine mode, as MPP holds it (1.2, table "RISC-V privilege levels").
pub const MACHINE_MODE: u64 = 3;

/// The bit of the machine software interrupt, MSIE of mie and MSIP of mip.
pub const MSI: u32 = 3;

/// The bit of the machine timer interrupt, MTIE of mie and MTIP of mip.
pub const MTI: u32 = 7;

/// The bit of the machine external interrupt, MEIE of mie and MEIP of mip.
pub const MEI: u32 = 11;
