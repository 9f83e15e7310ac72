//! The instruction that a word is.

ghost use Rattle.std.specs.Prelude.{◌≡◌, ℕ, ◌+◌, ◌-◌, ◌*◌, ◌/◌, ◌%◌, ◌^◌, ◌<◌, IfSome};
ghost use Rattle.hv_exec.specs.Fields.{IsWellFormed};
ghost use Rattle.hv_isa.specs.Table.{jalr_rows, branch_rows, load_rows, store_rows, immediate_rows, immediate_word_rows, register_rows, register_word_rows, fence_rows, system_rows, by_rows, decoded};

use crate::fields::{
    b_immediate, funct3, funct6, funct7, i_immediate, j_immediate, long_amount, rd, rs1, rs2,
    s_immediate, upper_field, upper_immediate,
};
use hv_exec::Inst;
use hv_exec::functs::{
    ADD, ALTERNATE, AND, ARITHMETIC, BASE, BEQ, BGE, BGEU, BLT, BLTU, BNE, CSRRC, CSRRCI, CSRRS,
    CSRRSI, CSRRW, CSRRWI, DIV, DIVU, FENCE, FENCE_I, JALR_FUNCT3, LB, LBU, LD, LH, LHU, LOGICAL,
    LW, LWU, MUL, MULDIV, MULH, MULHSU, MULHU, OR, REM, REMU, SB, SD, SH, SLL, SLT, SLTU, SRA, SRL,
    SUB, SW, XOR,
};
use hv_exec::opcodes::{
    AUIPC, BRANCH, EBREAK, ECALL, JAL, JALR, LOAD, LUI, MISC_MEM, MRET, OP, OP_32, OP_IMM,
    OP_IMM_32, STORE, SYSTEM, WFI,
};

// The bits above the opcode of each word that has no operands.
const ECALL_HEAD: u32 = ECALL >> 7;

const EBREAK_HEAD: u32 = EBREAK >> 7;

const MRET_HEAD: u32 = MRET >> 7;

const WFI_HEAD: u32 = WFI >> 7;

/// The instruction that a word is, or None where it is in no row of the table.
#[tactic(auto, unfolding(crate::specs::Table::decoded, hv_exec::specs::Fields::IsWellFormed))]
pub fn decode(word: u32) -> Option<Inst>
    ensures table { result ≡ decoded word }
    ensures well_formed { IfSome result (λ i. IsWellFormed i) }
{
    match word % 128 {
        LUI => Some(Inst::Lui {
            rd: rd(word),
            imm: upper_immediate(word),
        }),
        AUIPC => Some(Inst::Auipc {
            rd: rd(word),
            imm: upper_immediate(word),
        }),
        JAL => Some(Inst::Jal {
            rd: rd(word),
            offset: j_immediate(word),
        }),
        JALR => jump(word),
        BRANCH => branch(word),
        LOAD => load(word),
        STORE => store(word),
        OP_IMM => immediate(word),
        OP_IMM_32 => immediate_word(word),
        OP => register(word),
        OP_32 => register_word(word),
        MISC_MEM => fence(word),
        SYSTEM => system(word),
        _ => None,
    }
}

#[tactic(auto, unfolding(hv_exec::specs::Fields::IsWellFormed))]
fn jump(word: u32) -> Option<Inst>
    ensures table { result ≡ by_rows word jalr_rows }
    ensures well_formed { IfSome result (λ i. IsWellFormed i) }
{
    match funct3(word) {
        JALR_FUNCT3 => Some(Inst::Jalr {
            rd: rd(word),
            rs1: rs1(word),
            imm: i_immediate(word),
        }),
        _ => None,
    }
}

#[tactic(auto, unfolding(hv_exec::specs::Fields::IsWellFormed))]
fn branch(word: u32) -> Option<Inst>
    ensures table { result ≡ by_rows word branch_rows }
    ensures well_formed { IfSome result (λ i. IsWellFormed i) }
{
    match funct3(word) {
        BEQ => Some(Inst::Beq {
            rs1: rs1(word),
            rs2: rs2(word),
            offset: b_immediate(word),
        }),
        BNE => Some(Inst::Bne {
            rs1: rs1(word),
            rs2: rs2(word),
            offset: b_immediate(word),
        }),
        BLT => Some(Inst::Blt {
            rs1: rs1(word),
            rs2: rs2(word),
            offset: b_immediate(word),
        }),
        BGE => Some(Inst::Bge {
            rs1: rs1(word),
            rs2: rs2(word),
            offset: b_immediate(word),
        }),
        BLTU => Some(Inst::Bltu {
            rs1: rs1(word),
            rs2: rs2(word),
            offset: b_immediate(word),
        }),
        BGEU => Some(Inst::Bgeu {
            rs1: rs1(word),
            rs2: rs2(word),
            offset: b_immediate(word),
        }),
        _ => None,
    }
}

#[tactic(auto, unfolding(hv_exec::specs::Fields::IsWellFormed))]
fn load(word: u32) -> Option<Inst>
    ensures table { result ≡ by_rows word load_rows }
    ensures well_formed { IfSome result (λ i. IsWellFormed i) }
{
    match funct3(word) {
        LB => Some(Inst::Lb {
            rd: rd(word),
            rs1: rs1(word),
            imm: i_immediate(word),
        }),
        LH => Some(Inst::Lh {
            rd: rd(word),
            rs1: rs1(word),
            imm: i_immediate(word),
        }),
        LW => Some(Inst::Lw {
            rd: rd(word),
            rs1: rs1(word),
            imm: i_immediate(word),
        }),
        LD => Some(Inst::Ld {
            rd: rd(word),
            rs1: rs1(word),
            imm: i_immediate(word),
        }),
        LBU => Some(Inst::Lbu {
            rd: rd(word),
            rs1: rs1(word),
            imm: i_immediate(word),
        }),
        LHU => Some(Inst::Lhu {
            rd: rd(word),
            rs1: rs1(word),
            imm: i_immediate(word),
        }),
        LWU => Some(Inst::Lwu {
            rd: rd(word),
            rs1: rs1(word),
            imm: i_immediate(word),
        }),
        _ => None,
    }
}

#[tactic(auto, unfolding(hv_exec::specs::Fields::IsWellFormed))]
fn store(word: u32) -> Option<Inst>
    ensures table { result ≡ by_rows word store_rows }
    ensures well_formed { IfSome result (λ i. IsWellFormed i) }
{
    match funct3(word) {
        SB => Some(Inst::Sb {
            rs1: rs1(word),
            rs2: rs2(word),
            imm: s_immediate(word),
        }),
        SH => Some(Inst::Sh {
            rs1: rs1(word),
            rs2: rs2(word),
            imm: s_immediate(word),
        }),
        SW => Some(Inst::Sw {
            rs1: rs1(word),
            rs2: rs2(word),
            imm: s_immediate(word),
        }),
        SD => Some(Inst::Sd {
            rs1: rs1(word),
            rs2: rs2(word),
            imm: s_immediate(word),
        }),
        _ => None,
    }
}

#[tactic(auto, unfolding(hv_exec::specs::Fields::IsWellFormed))]
fn immediate(word: u32) -> Option<Inst>
    ensures table { result ≡ by_rows word immediate_rows }
    ensures well_formed { IfSome result (λ i. IsWellFormed i) }
{
    match (funct3(word), funct6(word)) {
        (ADD, _) => Some(Inst::Addi {
            rd: rd(word),
            rs1: rs1(word),
            imm: i_immediate(word),
        }),
        (SLT, _) => Some(Inst::Slti {
            rd: rd(word),
            rs1: rs1(word),
            imm: i_immediate(word),
        }),
        (SLTU, _) => Some(Inst::Sltiu {
            rd: rd(word),
            rs1: rs1(word),
            imm: i_immediate(word),
        }),
        (XOR, _) => Some(Inst::Xori {
            rd: rd(word),
            rs1: rs1(word),
            imm: i_immediate(word),
        }),
        (OR, _) => Some(Inst::Ori {
            rd: rd(word),
            rs1: rs1(word),
            imm: i_immediate(word),
        }),
        (AND, _) => Some(Inst::Andi {
            rd: rd(word),
            rs1: rs1(word),
            imm: i_immediate(word),
        }),
        (SLL, LOGICAL) => Some(Inst::Slli {
            rd: rd(word),
            rs1: rs1(word),
            shamt: long_amount(word),
        }),
        (SRL, LOGICAL) => Some(Inst::Srli {
            rd: rd(word),
            rs1: rs1(word),
            shamt: long_amount(word),
        }),
        (SRA, ARITHMETIC) => Some(Inst::Srai {
            rd: rd(word),
            rs1: rs1(word),
            shamt: long_amount(word),
        }),
        _ => None,
    }
}

#[tactic(auto, unfolding(hv_exec::specs::Fields::IsWellFormed))]
fn immediate_word(word: u32) -> Option<Inst>
    ensures table { result ≡ by_rows word immediate_word_rows }
    ensures well_formed { IfSome result (λ i. IsWellFormed i) }
{
    match (funct3(word), funct7(word)) {
        (ADD, _) => Some(Inst::Addiw {
            rd: rd(word),
            rs1: rs1(word),
            imm: i_immediate(word),
        }),
        (SLL, BASE) => Some(Inst::Slliw {
            rd: rd(word),
            rs1: rs1(word),
            shamt: rs2(word),
        }),
        (SRL, BASE) => Some(Inst::Srliw {
            rd: rd(word),
            rs1: rs1(word),
            shamt: rs2(word),
        }),
        (SRA, ALTERNATE) => Some(Inst::Sraiw {
            rd: rd(word),
            rs1: rs1(word),
            shamt: rs2(word),
        }),
        _ => None,
    }
}

#[tactic(auto, unfolding(hv_exec::specs::Fields::IsWellFormed))]
fn register(word: u32) -> Option<Inst>
    ensures table { result ≡ by_rows word register_rows }
    ensures well_formed { IfSome result (λ i. IsWellFormed i) }
{
    match (funct7(word), funct3(word)) {
        (BASE, ADD) => Some(Inst::Add {
            rd: rd(word),
            rs1: rs1(word),
            rs2: rs2(word),
        }),
        (BASE, SLL) => Some(Inst::Sll {
            rd: rd(word),
            rs1: rs1(word),
            rs2: rs2(word),
        }),
        (BASE, SLT) => Some(Inst::Slt {
            rd: rd(word),
            rs1: rs1(word),
            rs2: rs2(word),
        }),
        (BASE, SLTU) => Some(Inst::Sltu {
            rd: rd(word),
            rs1: rs1(word),
            rs2: rs2(word),
        }),
        (BASE, XOR) => Some(Inst::Xor {
            rd: rd(word),
            rs1: rs1(word),
            rs2: rs2(word),
        }),
        (BASE, SRL) => Some(Inst::Srl {
            rd: rd(word),
            rs1: rs1(word),
            rs2: rs2(word),
        }),
        (BASE, OR) => Some(Inst::Or {
            rd: rd(word),
            rs1: rs1(word),
            rs2: rs2(word),
        }),
        (BASE, AND) => Some(Inst::And {
            rd: rd(word),
            rs1: rs1(word),
            rs2: rs2(word),
        }),
        (ALTERNATE, SUB) => Some(Inst::Sub {
            rd: rd(word),
            rs1: rs1(word),
            rs2: rs2(word),
        }),
        (ALTERNATE, SRA) => Some(Inst::Sra {
            rd: rd(word),
            rs1: rs1(word),
            rs2: rs2(word),
        }),
        (MULDIV, MUL) => Some(Inst::Mul {
            rd: rd(word),
            rs1: rs1(word),
            rs2: rs2(word),
        }),
        (MULDIV, MULH) => Some(Inst::Mulh {
            rd: rd(word),
            rs1: rs1(word),
            rs2: rs2(word),
        }),
        (MULDIV, MULHSU) => Some(Inst::Mulhsu {
            rd: rd(word),
            rs1: rs1(word),
            rs2: rs2(word),
        }),
        (MULDIV, MULHU) => Some(Inst::Mulhu {
            rd: rd(word),
            rs1: rs1(word),
            rs2: rs2(word),
        }),
        (MULDIV, DIV) => Some(Inst::Div {
            rd: rd(word),
            rs1: rs1(word),
            rs2: rs2(word),
        }),
        (MULDIV, DIVU) => Some(Inst::Divu {
            rd: rd(word),
            rs1: rs1(word),
            rs2: rs2(word),
        }),
        (MULDIV, REM) => Some(Inst::Rem {
            rd: rd(word),
            rs1: rs1(word),
            rs2: rs2(word),
        }),
        (MULDIV, REMU) => Some(Inst::Remu {
            rd: rd(word),
            rs1: rs1(word),
            rs2: rs2(word),
        }),
        _ => None,
    }
}

#[tactic(auto, unfolding(hv_exec::specs::Fields::IsWellFormed))]
fn register_word(word: u32) -> Option<Inst>
    ensures table { result ≡ by_rows word register_word_rows }
    ensures well_formed { IfSome result (λ i. IsWellFormed i) }
{
    match (funct7(word), funct3(word)) {
        (BASE, ADD) => Some(Inst::Addw {
            rd: rd(word),
            rs1: rs1(word),
            rs2: rs2(word),
        }),
        (BASE, SLL) => Some(Inst::Sllw {
            rd: rd(word),
            rs1: rs1(word),
            rs2: rs2(word),
        }),
        (BASE, SRL) => Some(Inst::Srlw {
            rd: rd(word),
            rs1: rs1(word),
            rs2: rs2(word),
        }),
        (ALTERNATE, SUB) => Some(Inst::Subw {
            rd: rd(word),
            rs1: rs1(word),
            rs2: rs2(word),
        }),
        (ALTERNATE, SRA) => Some(Inst::Sraw {
            rd: rd(word),
            rs1: rs1(word),
            rs2: rs2(word),
        }),
        (MULDIV, MUL) => Some(Inst::Mulw {
            rd: rd(word),
            rs1: rs1(word),
            rs2: rs2(word),
        }),
        (MULDIV, DIV) => Some(Inst::Divw {
            rd: rd(word),
            rs1: rs1(word),
            rs2: rs2(word),
        }),
        (MULDIV, DIVU) => Some(Inst::Divuw {
            rd: rd(word),
            rs1: rs1(word),
            rs2: rs2(word),
        }),
        (MULDIV, REM) => Some(Inst::Remw {
            rd: rd(word),
            rs1: rs1(word),
            rs2: rs2(word),
        }),
        (MULDIV, REMU) => Some(Inst::Remuw {
            rd: rd(word),
            rs1: rs1(word),
            rs2: rs2(word),
        }),
        _ => None,
    }
}

#[tactic(auto, unfolding(hv_exec::specs::Fields::IsWellFormed))]
fn fence(word: u32) -> Option<Inst>
    ensures table { result ≡ by_rows word fence_rows }
    ensures well_formed { IfSome result (λ i. IsWellFormed i) }
{
    match funct3(word) {
        FENCE => Some(Inst::Fence {
            rd: rd(word),
            rs1: rs1(word),
            fields: upper_field(word),
        }),
        FENCE_I => Some(Inst::FenceI {
            rd: rd(word),
            rs1: rs1(word),
            fields: upper_field(word),
        }),
        _ => None,
    }
}

#[tactic(auto, unfolding(hv_exec::specs::Fields::IsWellFormed))]
fn system(word: u32) -> Option<Inst>
    ensures table { result ≡ by_rows word system_rows }
    ensures well_formed { IfSome result (λ i. IsWellFormed i) }
{
    match (funct3(word), word >> 7) {
        (CSRRW, _) => Some(Inst::Csrrw {
            rd: rd(word),
            rs1: rs1(word),
            csr: upper_field(word),
        }),
        (CSRRS, _) => Some(Inst::Csrrs {
            rd: rd(word),
            rs1: rs1(word),
            csr: upper_field(word),
        }),
        (CSRRC, _) => Some(Inst::Csrrc {
            rd: rd(word),
            rs1: rs1(word),
            csr: upper_field(word),
        }),
        (CSRRWI, _) => Some(Inst::Csrrwi {
            rd: rd(word),
            imm: rs1(word),
            csr: upper_field(word),
        }),
        (CSRRSI, _) => Some(Inst::Csrrsi {
            rd: rd(word),
            imm: rs1(word),
            csr: upper_field(word),
        }),
        (CSRRCI, _) => Some(Inst::Csrrci {
            rd: rd(word),
            imm: rs1(word),
            csr: upper_field(word),
        }),
        (_, ECALL_HEAD) => Some(Inst::Ecall),
        (_, EBREAK_HEAD) => Some(Inst::Ebreak),
        (_, MRET_HEAD) => Some(Inst::Mret),
        (_, WFI_HEAD) => Some(Inst::Wfi),
        _ => None,
    }
}
