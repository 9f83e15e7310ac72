//! The CSR instructions and MRET.

ghost use Rattle.std.specs.Prelude.{◌≡◌, ℕ, ◌+◌, ◌*◌, ◌^◌, ◌<◌};
ghost use Rattle.hv_exec.specs.Fields.{IsWellFormed};
ghost use Rattle.hv_exec.specs.Operation.{IsPrivileged};
ghost use Rattle.hv_trap.specs.Csr as csrs;
ghost use Rattle.hv_trap.specs.Csr.{csr_of};
ghost use Rattle.hv_trap.specs.Trap.{accessed, changed, csr_word, IsOver, system_meaning, unless_zero, writes};

use crate::csr::{Change, Csr, csr_of, is_read_only, read, write};
use crate::entry::return_from_trap;
use hv_exec::causes::ILLEGAL_INSTRUCTION;
use hv_exec::functs::{CSRRC, CSRRCI, CSRRS, CSRRSI, CSRRW, CSRRWI};
use hv_exec::opcodes::SYSTEM;
use hv_exec::{After, Ctx, Inst};

/// Carries out a CSR instruction or MRET. An illegal one traps with its word.
#[tactic(auto, unfolding(crate::specs::Trap::system_meaning, hv_exec::specs::Fields::IsWellFormed, hv_exec::specs::Operation::operation_of))]
pub fn system(ctx: &mut Ctx, inst: Inst) -> After
    requires fields { IsWellFormed inst }
    requires privileged { IsPrivileged inst }
    ensures context { ctx.new ≡ (system_meaning ctx.old inst).context }
    ensures answer { result ≡ (system_meaning ctx.old inst).answer }
    ensures over { IsOver ctx.old ctx.new result }
{
    match inst {
        Inst::Csrrw { rd, rs1, csr } => {
            let operand = ctx.register(rs1);
            access(
                ctx,
                rd,
                csr,
                Change::Replace,
                operand,
                csr_word(CSRRW, rd, rs1, csr),
            )
        }
        Inst::Csrrs { rd, rs1, csr } => {
            let operand = ctx.register(rs1);
            access(
                ctx,
                rd,
                csr,
                unless_zero(rs1, Change::Set),
                operand,
                csr_word(CSRRS, rd, rs1, csr),
            )
        }
        Inst::Csrrc { rd, rs1, csr } => {
            let operand = ctx.register(rs1);
            access(
                ctx,
                rd,
                csr,
                unless_zero(rs1, Change::Clear),
                operand,
                csr_word(CSRRC, rd, rs1, csr),
            )
        }
        Inst::Csrrwi { rd, imm, csr } => {
            access(
                ctx,
                rd,
                csr,
                Change::Replace,
                u64::from(imm),
                csr_word(CSRRWI, rd, imm, csr),
            )
        }
        Inst::Csrrsi { rd, imm, csr } => {
            access(
                ctx,
                rd,
                csr,
                unless_zero(imm, Change::Set),
                u64::from(imm),
                csr_word(CSRRSI, rd, imm, csr),
            )
        }
        Inst::Csrrci { rd, imm, csr } => {
            access(
                ctx,
                rd,
                csr,
                unless_zero(imm, Change::Clear),
                u64::from(imm),
                csr_word(CSRRCI, rd, imm, csr),
            )
        }
        Inst::Mret => {
            return_from_trap(ctx);
            After::Done
        }
        _ => unreachable!(),
    }
}

fn access(ctx: &mut Ctx, rd: u8, number: u16, change: Change, operand: u64, word: u64) -> After
    requires { rd < 32 }
    ensures context { ctx.new ≡ (accessed ctx.old rd (csr_of number) change operand word).context }
    ensures answer { result ≡ (accessed ctx.old rd (csr_of number) change operand word).answer }
{
    let Some(csr) = csr_of(number) else {
        return After::Trap {
            cause: ILLEGAL_INSTRUCTION,
            value: word,
        };
    };
    if writes(change) && is_read_only(csr) {
        return After::Trap {
            cause: ILLEGAL_INSTRUCTION,
            value: word,
        };
    }
    let before = read(ctx, csr);
    apply(ctx, csr, change, before, operand);
    ctx.set_register(rd, before);
    ctx.advance();
    After::Done
}

fn apply(ctx: &mut Ctx, csr: Csr, change: Change, before: u64, operand: u64)
    requires { before ≡ csrs.read ctx.old csr }
    ensures { ctx.new ≡ changed ctx.old csr change operand }
{
    match change {
        Change::Keep => (),
        Change::Replace => write(ctx, csr, operand),
        Change::Set => write(ctx, csr, before | operand),
        Change::Clear => write(ctx, csr, before & !operand),
    }
}

fn writes(change: Change) -> bool
    ensures { result ≡ writes change }
{
    !matches!(change, Change::Keep)
}

fn unless_zero(field: u8, change: Change) -> Change
    ensures { result ≡ unless_zero field change }
{
    if field == 0 { Change::Keep } else { change }
}

fn csr_word(funct3: u32, rd: u8, field: u8, csr: u16) -> u64
    requires { funct3 < 8 }
    ensures { result ≡ csr_word funct3 rd field csr }
{
    let low = u64::from(SYSTEM) + u64::from(rd) * 0x80 + u64::from(funct3) * 0x1000;
    low + u64::from(field) * 0x8000 + u64::from(csr) * 0x10_0000
}
