//! What an instruction asks of the hart: one kind of work for each family of instructions.

ghost use Rattle.std.specs.Prelude.{◌≡◌, ℕ, ◌+◌, ◌-◌, ◌*◌, ◌/◌, ◌%◌, ◌^◌, ◌<◌, ◌≤◌, true, false};
ghost use Rattle.hv_exec.specs.Fields.{IsWellFormed};
ghost use Rattle.hv_exec.specs.Operation.{on_registers, on_immediate, on_amount, on_upper, operation_of};
ghost use Rattle.hv_exec.specs.OperationFields.{IsOperation};

use crate::causes::{BREAKPOINT, ENVIRONMENT_CALL_FROM_M_MODE};
use crate::inst::Inst;

/// How a result comes from two words. The names that end in `Word` are of the lowest 32 bits.
#[derive(Clone, Copy, Drop)]
pub enum Alu {
    Add,
    Subtract,
    ShiftLeft,
    Less,
    LessUnsigned,
    ExclusiveOr,
    ShiftRight,
    ShiftRightSigned,
    Or,
    And,
    Multiply,
    MultiplyHigh,
    MultiplyHighMixed,
    MultiplyHighUnsigned,
    Divide,
    DivideUnsigned,
    Remain,
    RemainUnsigned,
    AddWord,
    SubtractWord,
    ShiftLeftWord,
    ShiftRightWord,
    ShiftRightSignedWord,
    MultiplyWord,
    DivideWord,
    DivideUnsignedWord,
    RemainWord,
    RemainUnsignedWord,
}

/// A word that an instruction reads.
#[derive(Clone, Copy, Drop)]
pub enum Operand {
    Register(u8),
    Immediate(i32),
    /// How far to shift.
    Amount(u8),
    /// The upper twenty bits of a word of 32 bits.
    Upper(u32),
    Pc,
    Zero,
}

/// When a branch is taken.
#[derive(Clone, Copy, Drop)]
pub enum Condition {
    Equal,
    NotEqual,
    Less,
    NotLess,
    LessUnsigned,
    NotLessUnsigned,
}

/// The work of an instruction.
#[derive(Clone, Copy, Drop)]
pub enum Operation {
    Compute {
        rd: u8,
        how: Alu,
        left: Operand,
        right: Operand,
    },
    Jump {
        rd: u8,
        offset: i32,
    },
    JumpRegister {
        rd: u8,
        rs1: u8,
        imm: i32,
    },
    Branch {
        when: Condition,
        rs1: u8,
        rs2: u8,
        offset: i32,
    },
    Read {
        size: u8,
        signed: bool,
        rd: u8,
        rs1: u8,
        imm: i32,
    },
    Write {
        size: u8,
        rs1: u8,
        rs2: u8,
        imm: i32,
    },
    Skip,
    Raise {
        cause: u64,
    },
    Sleep,
    Privileged,
}

fn registers(how: Alu, rd: u8, rs1: u8, rs2: u8) -> Operation
    ensures { result ≡ on_registers how rd rs1 rs2 }
{
    Operation::Compute {
        rd,
        how,
        left: Operand::Register(rs1),
        right: Operand::Register(rs2),
    }
}

fn immediate(how: Alu, rd: u8, rs1: u8, imm: i32) -> Operation
    ensures { result ≡ on_immediate how rd rs1 imm }
{
    Operation::Compute {
        rd,
        how,
        left: Operand::Register(rs1),
        right: Operand::Immediate(imm),
    }
}

fn shift(how: Alu, rd: u8, rs1: u8, amount: u8) -> Operation
    ensures { result ≡ on_amount how rd rs1 amount }
{
    Operation::Compute {
        rd,
        how,
        left: Operand::Register(rs1),
        right: Operand::Amount(amount),
    }
}

fn upper(rd: u8, base: Operand, imm: u32) -> Operation
    ensures { result ≡ on_upper rd base imm }
{
    Operation::Compute {
        rd,
        how: Alu::Add,
        left: base,
        right: Operand::Upper(imm),
    }
}

fn branch(when: Condition, rs1: u8, rs2: u8, offset: i32) -> Operation
    ensures { result ≡ Operation.Branch when rs1 rs2 offset }
{
    Operation::Branch {
        when,
        rs1,
        rs2,
        offset,
    }
}

fn read(size: u8, signed: bool, rd: u8, rs1: u8, imm: i32) -> Operation
    ensures { result ≡ Operation.Read size signed rd rs1 imm }
{
    Operation::Read {
        size,
        signed,
        rd,
        rs1,
        imm,
    }
}

fn write(size: u8, rs1: u8, rs2: u8, imm: i32) -> Operation
    ensures { result ≡ Operation.Write size rs1 rs2 imm }
{
    Operation::Write {
        size,
        rs1,
        rs2,
        imm,
    }
}

#[tactic(auto, unfolding(crate::specs::Operation::operation_of, crate::specs::Fields::IsWellFormed))]
pub fn operation_of(inst: Inst) -> Operation
    requires { IsWellFormed inst }
    ensures table { result ≡ operation_of inst }
    ensures in_range { IsOperation result }
{
    match inst {
        Inst::Lui { rd, imm } => upper(rd, Operand::Zero, imm),
        Inst::Auipc { rd, imm } => upper(rd, Operand::Pc, imm),
        Inst::Jal { rd, offset } => Operation::Jump { rd, offset },
        Inst::Jalr { rd, rs1, imm } => Operation::JumpRegister { rd, rs1, imm },
        Inst::Beq { rs1, rs2, offset } => branch(Condition::Equal, rs1, rs2, offset),
        Inst::Bne { rs1, rs2, offset } => branch(Condition::NotEqual, rs1, rs2, offset),
        Inst::Blt { rs1, rs2, offset } => branch(Condition::Less, rs1, rs2, offset),
        Inst::Bge { rs1, rs2, offset } => branch(Condition::NotLess, rs1, rs2, offset),
        Inst::Bltu { rs1, rs2, offset } => branch(Condition::LessUnsigned, rs1, rs2, offset),
        Inst::Bgeu { rs1, rs2, offset } => branch(Condition::NotLessUnsigned, rs1, rs2, offset),
        Inst::Lb { rd, rs1, imm } => read(1, true, rd, rs1, imm),
        Inst::Lh { rd, rs1, imm } => read(2, true, rd, rs1, imm),
        Inst::Lw { rd, rs1, imm } => read(4, true, rd, rs1, imm),
        Inst::Ld { rd, rs1, imm } => read(8, true, rd, rs1, imm),
        Inst::Lbu { rd, rs1, imm } => read(1, false, rd, rs1, imm),
        Inst::Lhu { rd, rs1, imm } => read(2, false, rd, rs1, imm),
        Inst::Lwu { rd, rs1, imm } => read(4, false, rd, rs1, imm),
        Inst::Sb { rs1, rs2, imm } => write(1, rs1, rs2, imm),
        Inst::Sh { rs1, rs2, imm } => write(2, rs1, rs2, imm),
        Inst::Sw { rs1, rs2, imm } => write(4, rs1, rs2, imm),
        Inst::Sd { rs1, rs2, imm } => write(8, rs1, rs2, imm),
        Inst::Addi { rd, rs1, imm } => immediate(Alu::Add, rd, rs1, imm),
        Inst::Slti { rd, rs1, imm } => immediate(Alu::Less, rd, rs1, imm),
        Inst::Sltiu { rd, rs1, imm } => immediate(Alu::LessUnsigned, rd, rs1, imm),
        Inst::Xori { rd, rs1, imm } => immediate(Alu::ExclusiveOr, rd, rs1, imm),
        Inst::Ori { rd, rs1, imm } => immediate(Alu::Or, rd, rs1, imm),
        Inst::Andi { rd, rs1, imm } => immediate(Alu::And, rd, rs1, imm),
        Inst::Addiw { rd, rs1, imm } => immediate(Alu::AddWord, rd, rs1, imm),
        Inst::Slli { rd, rs1, shamt } => shift(Alu::ShiftLeft, rd, rs1, shamt),
        Inst::Srli { rd, rs1, shamt } => shift(Alu::ShiftRight, rd, rs1, shamt),
        Inst::Srai { rd, rs1, shamt } => shift(Alu::ShiftRightSigned, rd, rs1, shamt),
        Inst::Slliw { rd, rs1, shamt } => shift(Alu::ShiftLeftWord, rd, rs1, shamt),
        Inst::Srliw { rd, rs1, shamt } => shift(Alu::ShiftRightWord, rd, rs1, shamt),
        Inst::Sraiw { rd, rs1, shamt } => shift(Alu::ShiftRightSignedWord, rd, rs1, shamt),
        Inst::Add { rd, rs1, rs2 } => registers(Alu::Add, rd, rs1, rs2),
        Inst::Sub { rd, rs1, rs2 } => registers(Alu::Subtract, rd, rs1, rs2),
        Inst::Sll { rd, rs1, rs2 } => registers(Alu::ShiftLeft, rd, rs1, rs2),
        Inst::Slt { rd, rs1, rs2 } => registers(Alu::Less, rd, rs1, rs2),
        Inst::Sltu { rd, rs1, rs2 } => registers(Alu::LessUnsigned, rd, rs1, rs2),
        Inst::Xor { rd, rs1, rs2 } => registers(Alu::ExclusiveOr, rd, rs1, rs2),
        Inst::Srl { rd, rs1, rs2 } => registers(Alu::ShiftRight, rd, rs1, rs2),
        Inst::Sra { rd, rs1, rs2 } => registers(Alu::ShiftRightSigned, rd, rs1, rs2),
        Inst::Or { rd, rs1, rs2 } => registers(Alu::Or, rd, rs1, rs2),
        Inst::And { rd, rs1, rs2 } => registers(Alu::And, rd, rs1, rs2),
        Inst::Mul { rd, rs1, rs2 } => registers(Alu::Multiply, rd, rs1, rs2),
        Inst::Mulh { rd, rs1, rs2 } => registers(Alu::MultiplyHigh, rd, rs1, rs2),
        Inst::Mulhsu { rd, rs1, rs2 } => registers(Alu::MultiplyHighMixed, rd, rs1, rs2),
        Inst::Mulhu { rd, rs1, rs2 } => registers(Alu::MultiplyHighUnsigned, rd, rs1, rs2),
        Inst::Div { rd, rs1, rs2 } => registers(Alu::Divide, rd, rs1, rs2),
        Inst::Divu { rd, rs1, rs2 } => registers(Alu::DivideUnsigned, rd, rs1, rs2),
        Inst::Rem { rd, rs1, rs2 } => registers(Alu::Remain, rd, rs1, rs2),
        Inst::Remu { rd, rs1, rs2 } => registers(Alu::RemainUnsigned, rd, rs1, rs2),
        Inst::Addw { rd, rs1, rs2 } => registers(Alu::AddWord, rd, rs1, rs2),
        Inst::Subw { rd, rs1, rs2 } => registers(Alu::SubtractWord, rd, rs1, rs2),
        Inst::Sllw { rd, rs1, rs2 } => registers(Alu::ShiftLeftWord, rd, rs1, rs2),
        Inst::Srlw { rd, rs1, rs2 } => registers(Alu::ShiftRightWord, rd, rs1, rs2),
        Inst::Sraw { rd, rs1, rs2 } => registers(Alu::ShiftRightSignedWord, rd, rs1, rs2),
        Inst::Mulw { rd, rs1, rs2 } => registers(Alu::MultiplyWord, rd, rs1, rs2),
        Inst::Divw { rd, rs1, rs2 } => registers(Alu::DivideWord, rd, rs1, rs2),
        Inst::Divuw { rd, rs1, rs2 } => registers(Alu::DivideUnsignedWord, rd, rs1, rs2),
        Inst::Remw { rd, rs1, rs2 } => registers(Alu::RemainWord, rd, rs1, rs2),
        Inst::Remuw { rd, rs1, rs2 } => registers(Alu::RemainUnsignedWord, rd, rs1, rs2),
        Inst::Fence { .. } | Inst::FenceI { .. } => Operation::Skip,
        Inst::Ecall => Operation::Raise {
            cause: ENVIRONMENT_CALL_FROM_M_MODE,
        },
        Inst::Ebreak => Operation::Raise { cause: BREAKPOINT },
        Inst::Wfi => Operation::Sleep,
        Inst::Mret
        | Inst::Csrrw { .. }
        | Inst::Csrrs { .. }
        | Inst::Csrrc { .. }
        | Inst::Csrrwi { .. }
        | Inst::Csrrsi { .. }
        | Inst::Csrrci { .. } => Operation::Privileged,
    }
}
