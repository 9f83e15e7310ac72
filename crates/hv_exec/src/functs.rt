//! The minor opcodes of an instruction word: funct3, bits 14 to 12, funct7, bits 31 to 25, and
//! funct6, bits 31 to 26 (Unprivileged ISA, chapter "RV32/64G Instruction Set Listings", table
//! "Instruction listing for RISC-V"). A funct3 has the name of its instruction.

/// The one funct3 of the opcode JALR.
pub const JALR_FUNCT3: u32 = 0;

// funct3 of BRANCH.

pub const BEQ: u32 = 0;

pub const BNE: u32 = 1;

pub const BLT: u32 = 4;

pub const BGE: u32 = 5;

pub const BLTU: u32 = 6;

pub const BGEU: u32 = 7;

// funct3 of LOAD.

pub const LB: u32 = 0;

pub const LH: u32 = 1;

pub const LW: u32 = 2;

pub const LD: u32 = 3;

pub const LBU: u32 = 4;

pub const LHU: u32 = 5;

pub const LWU: u32 = 6;

// funct3 of STORE.

pub const SB: u32 = 0;

pub const SH: u32 = 1;

pub const SW: u32 = 2;

pub const SD: u32 = 3;

// funct3 of OP, with funct7 BASE or ALTERNATE. OP-32, OP-IMM and OP-IMM-32 have the same: that of
// ADDI and ADDIW is ADD.

pub const ADD: u32 = 0;

pub const SUB: u32 = 0;

pub const SLL: u32 = 1;

pub const SLT: u32 = 2;

pub const SLTU: u32 = 3;

pub const XOR: u32 = 4;

pub const SRL: u32 = 5;

pub const SRA: u32 = 5;

pub const OR: u32 = 6;

pub const AND: u32 = 7;

// funct3 of OP and OP-32 with funct7 MULDIV.

pub const MUL: u32 = 0;

pub const MULH: u32 = 1;

pub const MULHSU: u32 = 2;

pub const MULHU: u32 = 3;

pub const DIV: u32 = 4;

pub const DIVU: u32 = 5;

pub const REM: u32 = 6;

pub const REMU: u32 = 7;

// funct3 of MISC-MEM.

pub const FENCE: u32 = 0;

pub const FENCE_I: u32 = 1;

// funct3 of SYSTEM. That of ECALL, EBREAK, MRET and WFI is 0.

pub const CSRRW: u32 = 1;

pub const CSRRS: u32 = 2;

pub const CSRRC: u32 = 3;

pub const CSRRWI: u32 = 5;

pub const CSRRSI: u32 = 6;

pub const CSRRCI: u32 = 7;

// funct7 of OP, OP-32 and the shifts of OP-IMM-32.

/// Of each base instruction beside SUB, SRA and their word forms.
pub const BASE: u32 = 0x00;

/// Of SUB, SRA and their word forms.
pub const ALTERNATE: u32 = 0x20;

/// Of each instruction of the M extension.
pub const MULDIV: u32 = 0x01;

// funct6 of the shifts of OP-IMM, whose amount has six bits.

/// Of SLLI and SRLI.
pub const LOGICAL: u32 = 0x00;

/// Of SRAI.
pub const ARITHMETIC: u32 = 0x10;
