//! The causes of traps: the values of mcause by the RISC-V Privileged Architecture, 3.1.15, table
//! "Machine cause register (mcause) values after trap".
//!
//! Exception: a trap that an instruction raises; its cause is its exception code alone.
//! Interrupt: a trap that a pin raises; its cause is `INTERRUPT` plus its exception code.

/// The Interrupt bit of mcause, bit 63 where a register has 64 bits.
pub const INTERRUPT: u64 = 1 << 63;

/// The exception code of a machine software interrupt.
pub const MACHINE_SOFTWARE_INTERRUPT: u64 = 3;

/// The exception code of a machine timer interrupt.
pub const MACHINE_TIMER_INTERRUPT: u64 = 7;

/// The exception code of a machine external interrupt.
pub const MACHINE_EXTERNAL_INTERRUPT: u64 = 11;

/// The target of a jump or of a branch that is taken is no multiple of 4.
pub const INSTRUCTION_ADDRESS_MISALIGNED: u64 = 0;

/// An instruction can't be fetched.
pub const INSTRUCTION_ACCESS_FAULT: u64 = 1;

/// A word is no instruction, or one that the hart may not carry out.
pub const ILLEGAL_INSTRUCTION: u64 = 2;

/// EBREAK.
pub const BREAKPOINT: u64 = 3;

/// The address of a load is no multiple of its size.
pub const LOAD_ADDRESS_MISALIGNED: u64 = 4;

/// A load can't be carried out.
pub const LOAD_ACCESS_FAULT: u64 = 5;

/// The address of a store is no multiple of its size.
pub const STORE_ADDRESS_MISALIGNED: u64 = 6;

/// A store can't be carried out.
pub const STORE_ACCESS_FAULT: u64 = 7;

/// ECALL in machine mode.
pub const ENVIRONMENT_CALL_FROM_M_MODE: u64 = 11;
