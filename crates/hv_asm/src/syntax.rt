//! The table of names and forms of operands.
ghost use Rattle.std.specs.Prelude.{◌≡◌};
ghost use Rattle.hv_asm.specs.Syntax.{syntax_of};

use crate::operand::Operand::{Based, Decimal, Hexadecimal, Register};
use crate::operand::Operands::{Nothing, Three, Two};
use crate::operand::{Operand, Operands};
use hv_exec::Inst;

/// The name of an instruction.
pub(crate) fn name_of(inst: Inst) -> &'static str
    ensures { result.now ≡ (syntax_of inst).name }
{
    match inst {
        Inst::Lui { .. } => "lui",
        Inst::Auipc { .. } => "auipc",
        Inst::Jal { .. } => "jal",
        Inst::Jalr { .. } => "jalr",
        Inst::Lb { .. } => "lb",
        Inst::Lh { .. } => "lh",
        Inst::Lw { .. } => "lw",
        Inst::Ld { .. } => "ld",
        Inst::Lbu { .. } => "lbu",
        Inst::Lhu { .. } => "lhu",
        Inst::Lwu { .. } => "lwu",
        Inst::Sb { .. } => "sb",
        Inst::Sh { .. } => "sh",
        Inst::Sw { .. } => "sw",
        Inst::Sd { .. } => "sd",
        Inst::Beq { .. } => "beq",
        Inst::Bne { .. } => "bne",
        Inst::Blt { .. } => "blt",
        Inst::Bge { .. } => "bge",
        Inst::Bltu { .. } => "bltu",
        Inst::Bgeu { .. } => "bgeu",
        Inst::Addi { .. } => "addi",
        Inst::Slti { .. } => "slti",
        Inst::Sltiu { .. } => "sltiu",
        Inst::Xori { .. } => "xori",
        Inst::Ori { .. } => "ori",
        Inst::Andi { .. } => "andi",
        Inst::Addiw { .. } => "addiw",
        Inst::Slli { .. } => "slli",
        Inst::Srli { .. } => "srli",
        Inst::Srai { .. } => "srai",
        Inst::Slliw { .. } => "slliw",
        Inst::Srliw { .. } => "srliw",
        Inst::Sraiw { .. } => "sraiw",
        Inst::Add { .. } => "add",
        Inst::Sub { .. } => "sub",
        Inst::Sll { .. } => "sll",
        Inst::Slt { .. } => "slt",
        Inst::Sltu { .. } => "sltu",
        Inst::Xor { .. } => "xor",
        Inst::Srl { .. } => "srl",
        Inst::Sra { .. } => "sra",
        Inst::Or { .. } => "or",
        Inst::And { .. } => "and",
        Inst::Mul { .. } => "mul",
        Inst::Mulh { .. } => "mulh",
        Inst::Mulhsu { .. } => "mulhsu",
        Inst::Mulhu { .. } => "mulhu",
        Inst::Div { .. } => "div",
        Inst::Divu { .. } => "divu",
        Inst::Rem { .. } => "rem",
        Inst::Remu { .. } => "remu",
        Inst::Addw { .. } => "addw",
        Inst::Subw { .. } => "subw",
        Inst::Sllw { .. } => "sllw",
        Inst::Srlw { .. } => "srlw",
        Inst::Sraw { .. } => "sraw",
        Inst::Mulw { .. } => "mulw",
        Inst::Divw { .. } => "divw",
        Inst::Divuw { .. } => "divuw",
        Inst::Remw { .. } => "remw",
        Inst::Remuw { .. } => "remuw",
        Inst::Fence { .. } => "fence",
        Inst::FenceI { .. } => "fence.i",
        Inst::Ecall => "ecall",
        Inst::Ebreak => "ebreak",
        Inst::Mret => "mret",
        Inst::Wfi => "wfi",
        Inst::Csrrw { .. } => "csrrw",
        Inst::Csrrs { .. } => "csrrs",
        Inst::Csrrc { .. } => "csrrc",
        Inst::Csrrwi { .. } => "csrrwi",
        Inst::Csrrsi { .. } => "csrrsi",
        Inst::Csrrci { .. } => "csrrci",
    }
}

fn three_registers(one: u8, two: u8, three: u8) -> Operands
    ensures { result ≡ Operands.Three (Operand.Register one) (Operand.Register two) (Operand.Register three) }
{
    Three(Register(one), Register(two), Register(three))
}

fn two_and_number(one: u8, two: u8, value: i64) -> Operands
    ensures { result ≡ Operands.Three (Operand.Register one) (Operand.Register two) (Operand.Decimal value) }
{
    Three(Register(one), Register(two), Decimal(value))
}

/// The operands of an instruction, in the order of its line.
pub(crate) fn operands_of(inst: Inst) -> Operands
    ensures { result ≡ (syntax_of inst).operands }
{
    match inst {
        Inst::Lui { rd, imm } => Two(Register(rd), Hexadecimal(imm)),
        Inst::Auipc { rd, imm } => Two(Register(rd), Hexadecimal(imm)),
        Inst::Jal { rd, offset } => Two(Register(rd), Decimal(i64::from(offset))),
        Inst::Jalr { rd, rs1, imm } => Two(Register(rd), Based(i64::from(imm), rs1)),
        Inst::Lb { rd, rs1, imm } => Two(Register(rd), Based(i64::from(imm), rs1)),
        Inst::Lh { rd, rs1, imm } => Two(Register(rd), Based(i64::from(imm), rs1)),
        Inst::Lw { rd, rs1, imm } => Two(Register(rd), Based(i64::from(imm), rs1)),
        Inst::Ld { rd, rs1, imm } => Two(Register(rd), Based(i64::from(imm), rs1)),
        Inst::Lbu { rd, rs1, imm } => Two(Register(rd), Based(i64::from(imm), rs1)),
        Inst::Lhu { rd, rs1, imm } => Two(Register(rd), Based(i64::from(imm), rs1)),
        Inst::Lwu { rd, rs1, imm } => Two(Register(rd), Based(i64::from(imm), rs1)),
        Inst::Sb { rs1, rs2, imm } => Two(Register(rs2), Based(i64::from(imm), rs1)),
        Inst::Sh { rs1, rs2, imm } => Two(Register(rs2), Based(i64::from(imm), rs1)),
        Inst::Sw { rs1, rs2, imm } => Two(Register(rs2), Based(i64::from(imm), rs1)),
        Inst::Sd { rs1, rs2, imm } => Two(Register(rs2), Based(i64::from(imm), rs1)),
        Inst::Beq { rs1, rs2, offset } => two_and_number(rs1, rs2, i64::from(offset)),
        Inst::Bne { rs1, rs2, offset } => two_and_number(rs1, rs2, i64::from(offset)),
        Inst::Blt { rs1, rs2, offset } => two_and_number(rs1, rs2, i64::from(offset)),
        Inst::Bge { rs1, rs2, offset } => two_and_number(rs1, rs2, i64::from(offset)),
        Inst::Bltu { rs1, rs2, offset } => two_and_number(rs1, rs2, i64::from(offset)),
        Inst::Bgeu { rs1, rs2, offset } => two_and_number(rs1, rs2, i64::from(offset)),
        Inst::Addi { rd, rs1, imm } => two_and_number(rd, rs1, i64::from(imm)),
        Inst::Slti { rd, rs1, imm } => two_and_number(rd, rs1, i64::from(imm)),
        Inst::Sltiu { rd, rs1, imm } => two_and_number(rd, rs1, i64::from(imm)),
        Inst::Xori { rd, rs1, imm } => two_and_number(rd, rs1, i64::from(imm)),
        Inst::Ori { rd, rs1, imm } => two_and_number(rd, rs1, i64::from(imm)),
        Inst::Andi { rd, rs1, imm } => two_and_number(rd, rs1, i64::from(imm)),
        Inst::Addiw { rd, rs1, imm } => two_and_number(rd, rs1, i64::from(imm)),
        Inst::Slli { rd, rs1, shamt } => two_and_number(rd, rs1, i64::from(shamt)),
        Inst::Srli { rd, rs1, shamt } => two_and_number(rd, rs1, i64::from(shamt)),
        Inst::Srai { rd, rs1, shamt } => two_and_number(rd, rs1, i64::from(shamt)),
        Inst::Slliw { rd, rs1, shamt } => two_and_number(rd, rs1, i64::from(shamt)),
        Inst::Srliw { rd, rs1, shamt } => two_and_number(rd, rs1, i64::from(shamt)),
        Inst::Sraiw { rd, rs1, shamt } => two_and_number(rd, rs1, i64::from(shamt)),
        Inst::Add { rd, rs1, rs2 } => three_registers(rd, rs1, rs2),
        Inst::Sub { rd, rs1, rs2 } => three_registers(rd, rs1, rs2),
        Inst::Sll { rd, rs1, rs2 } => three_registers(rd, rs1, rs2),
        Inst::Slt { rd, rs1, rs2 } => three_registers(rd, rs1, rs2),
        Inst::Sltu { rd, rs1, rs2 } => three_registers(rd, rs1, rs2),
        Inst::Xor { rd, rs1, rs2 } => three_registers(rd, rs1, rs2),
        Inst::Srl { rd, rs1, rs2 } => three_registers(rd, rs1, rs2),
        Inst::Sra { rd, rs1, rs2 } => three_registers(rd, rs1, rs2),
        Inst::Or { rd, rs1, rs2 } => three_registers(rd, rs1, rs2),
        Inst::And { rd, rs1, rs2 } => three_registers(rd, rs1, rs2),
        Inst::Mul { rd, rs1, rs2 } => three_registers(rd, rs1, rs2),
        Inst::Mulh { rd, rs1, rs2 } => three_registers(rd, rs1, rs2),
        Inst::Mulhsu { rd, rs1, rs2 } => three_registers(rd, rs1, rs2),
        Inst::Mulhu { rd, rs1, rs2 } => three_registers(rd, rs1, rs2),
        Inst::Div { rd, rs1, rs2 } => three_registers(rd, rs1, rs2),
        Inst::Divu { rd, rs1, rs2 } => three_registers(rd, rs1, rs2),
        Inst::Rem { rd, rs1, rs2 } => three_registers(rd, rs1, rs2),
        Inst::Remu { rd, rs1, rs2 } => three_registers(rd, rs1, rs2),
        Inst::Addw { rd, rs1, rs2 } => three_registers(rd, rs1, rs2),
        Inst::Subw { rd, rs1, rs2 } => three_registers(rd, rs1, rs2),
        Inst::Sllw { rd, rs1, rs2 } => three_registers(rd, rs1, rs2),
        Inst::Srlw { rd, rs1, rs2 } => three_registers(rd, rs1, rs2),
        Inst::Sraw { rd, rs1, rs2 } => three_registers(rd, rs1, rs2),
        Inst::Mulw { rd, rs1, rs2 } => three_registers(rd, rs1, rs2),
        Inst::Divw { rd, rs1, rs2 } => three_registers(rd, rs1, rs2),
        Inst::Divuw { rd, rs1, rs2 } => three_registers(rd, rs1, rs2),
        Inst::Remw { rd, rs1, rs2 } => three_registers(rd, rs1, rs2),
        Inst::Remuw { rd, rs1, rs2 } => three_registers(rd, rs1, rs2),
        Inst::Fence { rd, rs1, fields } => Three(
            Hexadecimal(u32::from(fields)),
            Register(rs1),
            Register(rd),
        ),
        Inst::FenceI { rd, rs1, fields } => Three(
            Hexadecimal(u32::from(fields)),
            Register(rs1),
            Register(rd),
        ),
        Inst::Ecall => Nothing,
        Inst::Ebreak => Nothing,
        Inst::Mret => Nothing,
        Inst::Wfi => Nothing,
        Inst::Csrrw { rd, rs1, csr } => Three(
            Register(rd),
            Hexadecimal(u32::from(csr)),
            Register(rs1),
        ),
        Inst::Csrrs { rd, rs1, csr } => Three(
            Register(rd),
            Hexadecimal(u32::from(csr)),
            Register(rs1),
        ),
        Inst::Csrrc { rd, rs1, csr } => Three(
            Register(rd),
            Hexadecimal(u32::from(csr)),
            Register(rs1),
        ),
        Inst::Csrrwi { rd, imm, csr } => Three(
            Register(rd),
            Hexadecimal(u32::from(csr)),
            Decimal(i64::from(imm)),
        ),
        Inst::Csrrsi { rd, imm, csr } => Three(
            Register(rd),
            Hexadecimal(u32::from(csr)),
            Decimal(i64::from(imm)),
        ),
        Inst::Csrrci { rd, imm, csr } => Three(
            Register(rd),
            Hexadecimal(u32::from(csr)),
            Decimal(i64::from(imm)),
        ),
    }
}
