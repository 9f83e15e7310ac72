//! The instruction of a name and operands.
ghost use Rattle.std.specs.Prelude.{◌≡◌};
ghost use Rattle.hv_asm.specs.Forms.{is_within, is_even_within, of_registers, of_immediate, of_branch, of_long_shift, of_short_shift, of_number, of_load, of_store, of_jump, of_upper, of_csr_register, of_csr_immediate, of_fence, instruction_of};

use crate::find::find;
use crate::operand::{Operand, Operands};
use hv_exec::Inst;

fn of_registers(name: &[u8], rd: u8, rs1: u8, rs2: u8) -> Option<Inst>
    ensures { result ≡ of_registers name.now rd rs1 rs2 }
{
    let all = [
        Inst::Add { rd, rs1, rs2 },
        Inst::Sub { rd, rs1, rs2 },
        Inst::Sll { rd, rs1, rs2 },
        Inst::Slt { rd, rs1, rs2 },
        Inst::Sltu { rd, rs1, rs2 },
        Inst::Xor { rd, rs1, rs2 },
        Inst::Srl { rd, rs1, rs2 },
        Inst::Sra { rd, rs1, rs2 },
        Inst::Or { rd, rs1, rs2 },
        Inst::And { rd, rs1, rs2 },
        Inst::Mul { rd, rs1, rs2 },
        Inst::Mulh { rd, rs1, rs2 },
        Inst::Mulhsu { rd, rs1, rs2 },
        Inst::Mulhu { rd, rs1, rs2 },
        Inst::Div { rd, rs1, rs2 },
        Inst::Divu { rd, rs1, rs2 },
        Inst::Rem { rd, rs1, rs2 },
        Inst::Remu { rd, rs1, rs2 },
        Inst::Addw { rd, rs1, rs2 },
        Inst::Subw { rd, rs1, rs2 },
        Inst::Sllw { rd, rs1, rs2 },
        Inst::Srlw { rd, rs1, rs2 },
        Inst::Sraw { rd, rs1, rs2 },
        Inst::Mulw { rd, rs1, rs2 },
        Inst::Divw { rd, rs1, rs2 },
        Inst::Divuw { rd, rs1, rs2 },
        Inst::Remw { rd, rs1, rs2 },
        Inst::Remuw { rd, rs1, rs2 },
    ];
    find(name, &all)
}

fn of_immediate(name: &[u8], rd: u8, rs1: u8, value: i64) -> Option<Inst>
    ensures { result ≡ of_immediate name.now rd rs1 value }
{
    if -2048 <= value && value < 2048 {
        let imm = value as i32;
        let all = [
            Inst::Addi { rd, rs1, imm },
            Inst::Slti { rd, rs1, imm },
            Inst::Sltiu { rd, rs1, imm },
            Inst::Xori { rd, rs1, imm },
            Inst::Ori { rd, rs1, imm },
            Inst::Andi { rd, rs1, imm },
            Inst::Addiw { rd, rs1, imm },
        ];
        find(name, &all)
    } else {
        None
    }
}

fn of_branch(name: &[u8], rs1: u8, rs2: u8, value: i64) -> Option<Inst>
    ensures { result ≡ of_branch name.now rs1 rs2 value }
{
    if -4096 <= value && value < 4096 && value.unsigned_abs() % 2 == 0 {
        let offset = value as i32;
        let all = [
            Inst::Beq { rs1, rs2, offset },
            Inst::Bne { rs1, rs2, offset },
            Inst::Blt { rs1, rs2, offset },
            Inst::Bge { rs1, rs2, offset },
            Inst::Bltu { rs1, rs2, offset },
            Inst::Bgeu { rs1, rs2, offset },
        ];
        find(name, &all)
    } else {
        None
    }
}

fn of_long_shift(name: &[u8], rd: u8, rs1: u8, value: i64) -> Option<Inst>
    ensures { result ≡ of_long_shift name.now rd rs1 value }
{
    if 0 <= value && value < 64 {
        let shamt = value as u8;
        let all = [
            Inst::Slli { rd, rs1, shamt },
            Inst::Srli { rd, rs1, shamt },
            Inst::Srai { rd, rs1, shamt },
        ];
        find(name, &all)
    } else {
        None
    }
}

fn of_short_shift(name: &[u8], rd: u8, rs1: u8, value: i64) -> Option<Inst>
    ensures { result ≡ of_short_shift name.now rd rs1 value }
{
    if 0 <= value && value < 32 {
        let shamt = value as u8;
        let all = [
            Inst::Slliw { rd, rs1, shamt },
            Inst::Srliw { rd, rs1, shamt },
            Inst::Sraiw { rd, rs1, shamt },
        ];
        find(name, &all)
    } else {
        None
    }
}

fn of_number(name: &[u8], one: u8, two: u8, value: i64) -> Option<Inst>
    ensures { result ≡ of_number name.now one two value }
{
    if let Some(inst) = of_immediate(name, one, two, value) {
        return Some(inst);
    }
    if let Some(inst) = of_branch(name, one, two, value) {
        return Some(inst);
    }
    if let Some(inst) = of_long_shift(name, one, two, value) {
        return Some(inst);
    }
    of_short_shift(name, one, two, value)
}

fn of_load(name: &[u8], rd: u8, offset: i64, rs1: u8) -> Option<Inst>
    ensures { result ≡ of_load name.now rd offset rs1 }
{
    if -2048 <= offset && offset < 2048 {
        let imm = offset as i32;
        let all = [
            Inst::Jalr { rd, rs1, imm },
            Inst::Lb { rd, rs1, imm },
            Inst::Lh { rd, rs1, imm },
            Inst::Lw { rd, rs1, imm },
            Inst::Ld { rd, rs1, imm },
            Inst::Lbu { rd, rs1, imm },
            Inst::Lhu { rd, rs1, imm },
            Inst::Lwu { rd, rs1, imm },
        ];
        find(name, &all)
    } else {
        None
    }
}

fn of_store(name: &[u8], rs2: u8, offset: i64, rs1: u8) -> Option<Inst>
    ensures { result ≡ of_store name.now rs2 offset rs1 }
{
    if -2048 <= offset && offset < 2048 {
        let imm = offset as i32;
        let all = [
            Inst::Sb { rs1, rs2, imm },
            Inst::Sh { rs1, rs2, imm },
            Inst::Sw { rs1, rs2, imm },
            Inst::Sd { rs1, rs2, imm },
        ];
        find(name, &all)
    } else {
        None
    }
}

fn of_jump(name: &[u8], rd: u8, value: i64) -> Option<Inst>
    ensures { result ≡ of_jump name.now rd value }
{
    if -0x10_0000 <= value && value < 0x10_0000 && value.unsigned_abs() % 2 == 0 {
        let offset = value as i32;
        let all = [Inst::Jal { rd, offset }];
        find(name, &all)
    } else {
        None
    }
}

fn of_upper(name: &[u8], rd: u8, value: i64) -> Option<Inst>
    ensures { result ≡ of_upper name.now rd value }
{
    if 0 <= value && value < 0x10_0000 {
        let imm = value as u32;
        let all = [Inst::Lui { rd, imm }, Inst::Auipc { rd, imm }];
        find(name, &all)
    } else {
        None
    }
}

fn of_csr_register(name: &[u8], rd: u8, number: i64, rs1: u8) -> Option<Inst>
    ensures { result ≡ of_csr_register name.now rd number rs1 }
{
    if 0 <= number && number < 4096 {
        let csr = number as u16;
        let all = [
            Inst::Csrrw { rd, rs1, csr },
            Inst::Csrrs { rd, rs1, csr },
            Inst::Csrrc { rd, rs1, csr },
        ];
        find(name, &all)
    } else {
        None
    }
}

fn of_csr_immediate(name: &[u8], rd: u8, number: i64, value: i64) -> Option<Inst>
    ensures { result ≡ of_csr_immediate name.now rd number value }
{
    if 0 <= number && number < 4096 && 0 <= value && value < 32 {
        let csr = number as u16;
        let imm = value as u8;
        let all = [
            Inst::Csrrwi { rd, imm, csr },
            Inst::Csrrsi { rd, imm, csr },
            Inst::Csrrci { rd, imm, csr },
        ];
        find(name, &all)
    } else {
        None
    }
}

fn of_fence(name: &[u8], value: i64, rs1: u8, rd: u8) -> Option<Inst>
    ensures { result ≡ of_fence name.now value rs1 rd }
{
    if 0 <= value && value < 4096 {
        let fields = value as u16;
        let all = [
            Inst::Fence { rd, rs1, fields },
            Inst::FenceI { rd, rs1, fields },
        ];
        find(name, &all)
    } else {
        None
    }
}

#[tactic(auto, unfolding(crate::specs::Forms::instruction_of))]
fn of_two(name: &[u8], one: Operand, two: Operand) -> Option<Inst>
    ensures { result ≡ instruction_of name.now (Operands.Two one two) }
{
    match (one, two) {
        (Operand::Register(one), Operand::Based(offset, base)) => {
            if let Some(inst) = of_load(name, one, offset, base) {
                return Some(inst);
            }
            of_store(name, one, offset, base)
        }
        (Operand::Register(one), Operand::Decimal(value)) => {
            if let Some(inst) = of_jump(name, one, value) {
                return Some(inst);
            }
            of_upper(name, one, value)
        }
        _ => None,
    }
}

#[tactic(auto, unfolding(crate::specs::Forms::instruction_of))]
fn of_three(name: &[u8], one: Operand, two: Operand, three: Operand) -> Option<Inst>
    ensures { result ≡ instruction_of name.now (Operands.Three one two three) }
{
    match (one, two, three) {
        (Operand::Register(one), Operand::Register(two), Operand::Register(three)) => {
            of_registers(name, one, two, three)
        }
        (Operand::Register(one), Operand::Register(two), Operand::Decimal(value)) => {
            of_number(name, one, two, value)
        }
        (Operand::Register(one), Operand::Decimal(csr), Operand::Register(two)) => {
            of_csr_register(name, one, csr, two)
        }
        (Operand::Register(one), Operand::Decimal(csr), Operand::Decimal(value)) => {
            of_csr_immediate(name, one, csr, value)
        }
        (Operand::Decimal(fields), Operand::Register(one), Operand::Register(two)) => {
            of_fence(name, fields, one, two)
        }
        _ => None,
    }
}

/// The instruction of a name and operands, where each operand fits its field.
#[tactic(auto, unfolding(crate::specs::Forms::instruction_of))]
pub(crate) fn instruction(name: &[u8], operands: Operands) -> Option<Inst>
    ensures { result ≡ instruction_of name.now operands }
{
    match operands {
        Operands::Nothing => find(name, &[Inst::Ecall, Inst::Ebreak, Inst::Mret, Inst::Wfi]),
        Operands::One(_) => None,
        Operands::Two(one, two) => of_two(name, one, two),
        Operands::Three(one, two, three) => of_three(name, one, two, three),
    }
}
