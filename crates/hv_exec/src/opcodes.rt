//! The major opcodes, bits 6 to 0 of an instruction word (Unprivileged ISA, chapter "RV32/64G
//! Instruction Set Listings", table "RISC-V base opcode map"), and the words of the instructions
//! without operands (the same chapter's listings, and for MRET and WFI the Privileged
//! Architecture's chapter "RISC-V Privileged Instruction Set Listings").

pub const LOAD: u32 = 0x03;

pub const MISC_MEM: u32 = 0x0f;

pub const OP_IMM: u32 = 0x13;

pub const AUIPC: u32 = 0x17;

pub const OP_IMM_32: u32 = 0x1b;

pub const STORE: u32 = 0x23;

pub const OP: u32 = 0x33;

pub const LUI: u32 = 0x37;

pub const OP_32: u32 = 0x3b;

pub const BRANCH: u32 = 0x63;

pub const JALR: u32 = 0x67;

pub const JAL: u32 = 0x6f;

pub const SYSTEM: u32 = 0x73;

/// The word of ECALL.
pub const ECALL: u32 = 0x0000_0073;

/// The word of EBREAK.
pub const EBREAK: u32 = 0x0010_0073;

/// The word of MRET.
pub const MRET: u32 = 0x3020_0073;

/// The word of WFI.
pub const WFI: u32 = 0x1050_0073;
