//! The word of an instruction.

ghost use Rattle.std.specs.Prelude.{◌≡◌, ℕ, ◌+◌, ◌-◌, ◌*◌, ◌/◌, ◌%◌, ◌^◌, ◌<◌, Some};
ghost use Rattle.hv_exec.specs.Fields.{IsWellFormed};
ghost use Rattle.hv_isa.specs.Table.{decoded};

use crate::packing::{b_word, field_word, i_word, j_word, r_word, s_word, shift_word, u_word};
use hv_exec::Inst;
use hv_exec::functs::{
    ADD, ALTERNATE, AND, ARITHMETIC, BASE, BEQ, BGE, BGEU, BLT, BLTU, BNE, CSRRC, CSRRCI, CSRRS,
    CSRRSI, CSRRW, CSRRWI, DIV, DIVU, FENCE, FENCE_I, JALR_FUNCT3, LB, LBU, LD, LH, LHU, LOGICAL,
    LW, LWU, MUL, MULDIV, MULH, MULHSU, MULHU, OR, REM, REMU, SB, SD, SH, SLL, SLT, SLTU, SRA, SRL,
    SUB, SW, XOR,
};
use hv_exec::opcodes::{
    AUIPC, BRANCH, EBREAK, ECALL, JAL, JALR, LOAD, LUI, MISC_MEM, MRET, OP, OP_32, OP_IMM,
    OP_IMM_32, STORE, SYSTEM, WFI,
};

/// The one word that is this instruction.
pub fn encode(inst: Inst) -> u32
    requires { IsWellFormed inst }
    ensures decodes { decoded result ≡ Some inst }
    ensures only { (word : ℕ) → word < 2 ^ 32 → decoded word ≡ Some inst → word ≡ result }
{
    word_of(inst)
}

#[tactic(auto, unfolding(crate::specs::Table::decoded, hv_exec::specs::Fields::IsWellFormed))]
fn word_of(inst: Inst) -> u32
    requires { IsWellFormed inst }
    ensures { decoded result ≡ Some inst }
{
    match inst {
        Inst::Lui { rd, imm } => u_word(LUI, rd, imm),
        Inst::Auipc { rd, imm } => u_word(AUIPC, rd, imm),
        Inst::Jal { rd, offset } => j_word(JAL, rd, offset),
        Inst::Jalr { rd, rs1, imm } => i_word(JALR, JALR_FUNCT3, rd, rs1, imm),
        Inst::Beq { rs1, rs2, offset } => b_word(BRANCH, BEQ, rs1, rs2, offset),
        Inst::Bne { rs1, rs2, offset } => b_word(BRANCH, BNE, rs1, rs2, offset),
        Inst::Blt { rs1, rs2, offset } => b_word(BRANCH, BLT, rs1, rs2, offset),
        Inst::Bge { rs1, rs2, offset } => b_word(BRANCH, BGE, rs1, rs2, offset),
        Inst::Bltu { rs1, rs2, offset } => b_word(BRANCH, BLTU, rs1, rs2, offset),
        Inst::Bgeu { rs1, rs2, offset } => b_word(BRANCH, BGEU, rs1, rs2, offset),
        Inst::Lb { rd, rs1, imm } => i_word(LOAD, LB, rd, rs1, imm),
        Inst::Lh { rd, rs1, imm } => i_word(LOAD, LH, rd, rs1, imm),
        Inst::Lw { rd, rs1, imm } => i_word(LOAD, LW, rd, rs1, imm),
        Inst::Ld { rd, rs1, imm } => i_word(LOAD, LD, rd, rs1, imm),
        Inst::Lbu { rd, rs1, imm } => i_word(LOAD, LBU, rd, rs1, imm),
        Inst::Lhu { rd, rs1, imm } => i_word(LOAD, LHU, rd, rs1, imm),
        Inst::Lwu { rd, rs1, imm } => i_word(LOAD, LWU, rd, rs1, imm),
        Inst::Sb { rs1, rs2, imm } => s_word(STORE, SB, rs1, rs2, imm),
        Inst::Sh { rs1, rs2, imm } => s_word(STORE, SH, rs1, rs2, imm),
        Inst::Sw { rs1, rs2, imm } => s_word(STORE, SW, rs1, rs2, imm),
        Inst::Sd { rs1, rs2, imm } => s_word(STORE, SD, rs1, rs2, imm),
        Inst::Addi { rd, rs1, imm } => i_word(OP_IMM, ADD, rd, rs1, imm),
        Inst::Slti { rd, rs1, imm } => i_word(OP_IMM, SLT, rd, rs1, imm),
        Inst::Sltiu { rd, rs1, imm } => i_word(OP_IMM, SLTU, rd, rs1, imm),
        Inst::Xori { rd, rs1, imm } => i_word(OP_IMM, XOR, rd, rs1, imm),
        Inst::Ori { rd, rs1, imm } => i_word(OP_IMM, OR, rd, rs1, imm),
        Inst::Andi { rd, rs1, imm } => i_word(OP_IMM, AND, rd, rs1, imm),
        Inst::Slli { rd, rs1, shamt } => shift_word(OP_IMM, SLL, LOGICAL, rd, rs1, shamt),
        Inst::Srli { rd, rs1, shamt } => shift_word(OP_IMM, SRL, LOGICAL, rd, rs1, shamt),
        Inst::Srai { rd, rs1, shamt } => shift_word(OP_IMM, SRA, ARITHMETIC, rd, rs1, shamt),
        Inst::Addiw { rd, rs1, imm } => i_word(OP_IMM_32, ADD, rd, rs1, imm),
        Inst::Slliw { rd, rs1, shamt } => r_word(OP_IMM_32, SLL, BASE, rd, rs1, shamt),
        Inst::Srliw { rd, rs1, shamt } => r_word(OP_IMM_32, SRL, BASE, rd, rs1, shamt),
        Inst::Sraiw { rd, rs1, shamt } => r_word(OP_IMM_32, SRA, ALTERNATE, rd, rs1, shamt),
        Inst::Add { rd, rs1, rs2 } => r_word(OP, ADD, BASE, rd, rs1, rs2),
        Inst::Sll { rd, rs1, rs2 } => r_word(OP, SLL, BASE, rd, rs1, rs2),
        Inst::Slt { rd, rs1, rs2 } => r_word(OP, SLT, BASE, rd, rs1, rs2),
        Inst::Sltu { rd, rs1, rs2 } => r_word(OP, SLTU, BASE, rd, rs1, rs2),
        Inst::Xor { rd, rs1, rs2 } => r_word(OP, XOR, BASE, rd, rs1, rs2),
        Inst::Srl { rd, rs1, rs2 } => r_word(OP, SRL, BASE, rd, rs1, rs2),
        Inst::Or { rd, rs1, rs2 } => r_word(OP, OR, BASE, rd, rs1, rs2),
        Inst::And { rd, rs1, rs2 } => r_word(OP, AND, BASE, rd, rs1, rs2),
        Inst::Sub { rd, rs1, rs2 } => r_word(OP, SUB, ALTERNATE, rd, rs1, rs2),
        Inst::Sra { rd, rs1, rs2 } => r_word(OP, SRA, ALTERNATE, rd, rs1, rs2),
        Inst::Mul { rd, rs1, rs2 } => r_word(OP, MUL, MULDIV, rd, rs1, rs2),
        Inst::Mulh { rd, rs1, rs2 } => r_word(OP, MULH, MULDIV, rd, rs1, rs2),
        Inst::Mulhsu { rd, rs1, rs2 } => r_word(OP, MULHSU, MULDIV, rd, rs1, rs2),
        Inst::Mulhu { rd, rs1, rs2 } => r_word(OP, MULHU, MULDIV, rd, rs1, rs2),
        Inst::Div { rd, rs1, rs2 } => r_word(OP, DIV, MULDIV, rd, rs1, rs2),
        Inst::Divu { rd, rs1, rs2 } => r_word(OP, DIVU, MULDIV, rd, rs1, rs2),
        Inst::Rem { rd, rs1, rs2 } => r_word(OP, REM, MULDIV, rd, rs1, rs2),
        Inst::Remu { rd, rs1, rs2 } => r_word(OP, REMU, MULDIV, rd, rs1, rs2),
        Inst::Addw { rd, rs1, rs2 } => r_word(OP_32, ADD, BASE, rd, rs1, rs2),
        Inst::Sllw { rd, rs1, rs2 } => r_word(OP_32, SLL, BASE, rd, rs1, rs2),
        Inst::Srlw { rd, rs1, rs2 } => r_word(OP_32, SRL, BASE, rd, rs1, rs2),
        Inst::Subw { rd, rs1, rs2 } => r_word(OP_32, SUB, ALTERNATE, rd, rs1, rs2),
        Inst::Sraw { rd, rs1, rs2 } => r_word(OP_32, SRA, ALTERNATE, rd, rs1, rs2),
        Inst::Mulw { rd, rs1, rs2 } => r_word(OP_32, MUL, MULDIV, rd, rs1, rs2),
        Inst::Divw { rd, rs1, rs2 } => r_word(OP_32, DIV, MULDIV, rd, rs1, rs2),
        Inst::Divuw { rd, rs1, rs2 } => r_word(OP_32, DIVU, MULDIV, rd, rs1, rs2),
        Inst::Remw { rd, rs1, rs2 } => r_word(OP_32, REM, MULDIV, rd, rs1, rs2),
        Inst::Remuw { rd, rs1, rs2 } => r_word(OP_32, REMU, MULDIV, rd, rs1, rs2),
        Inst::Fence { rd, rs1, fields } => field_word(MISC_MEM, FENCE, rd, rs1, fields),
        Inst::FenceI { rd, rs1, fields } => field_word(MISC_MEM, FENCE_I, rd, rs1, fields),
        Inst::Ecall => ECALL,
        Inst::Ebreak => EBREAK,
        Inst::Mret => MRET,
        Inst::Wfi => WFI,
        Inst::Csrrw { rd, rs1, csr } => field_word(SYSTEM, CSRRW, rd, rs1, csr),
        Inst::Csrrs { rd, rs1, csr } => field_word(SYSTEM, CSRRS, rd, rs1, csr),
        Inst::Csrrc { rd, rs1, csr } => field_word(SYSTEM, CSRRC, rd, rs1, csr),
        Inst::Csrrwi { rd, imm, csr } => field_word(SYSTEM, CSRRWI, rd, imm, csr),
        Inst::Csrrsi { rd, imm, csr } => field_word(SYSTEM, CSRRSI, rd, imm, csr),
        Inst::Csrrci { rd, imm, csr } => field_word(SYSTEM, CSRRCI, rd, imm, csr),
    }
}
