//! The effect of an instruction on a context.

ghost use Rattle.std.specs.Prelude.{◌≡◌, ◌↔◌, ◌⊎◌, ℕ, ◌+◌, ◌-◌, ◌*◌, ◌/◌, ◌%◌, ◌^◌, ◌<◌, ℤ, Bool, IsTrue, if◌then◌else◌};
ghost use Rattle.hv_exec.specs.Context.{advanced};
ghost use Rattle.hv_exec.specs.Fields.{IsWellFormed};
ghost use Rattle.hv_exec.specs.Meaning.{IsAnswered, computed, jumped, branched, slept, effect, meaning, offset_from, value_of, holds, extended, after_load, even};
ghost use Rattle.hv_exec.specs.Operation.{IsPrivileged, IsSize};
ghost use Rattle.hv_exec.specs.OperationFields.{IsOperand, IsOperation};

use crate::causes::INSTRUCTION_ADDRESS_MISALIGNED;
use crate::context::{After, Ctx};
use crate::inst::Inst;
use crate::operation::{Condition, Operand, Operation, operation_of};
use crate::result::result_of;
use crate::{alu, word};

/// Carries out an instruction, save the access of a load or a store and what `system` does.
/// It answers an access for each address: alignment is tested where the access is carried out.
#[tactic(auto, unfolding(crate::specs::Meaning::meaning))]
pub fn exec(ctx: &mut Ctx, inst: Inst) -> After
    requires { IsWellFormed inst }
    ensures context { ctx.new ≡ (meaning ctx.old inst).context }
    ensures answer { result ≡ (meaning ctx.old inst).answer }
    ensures answered { IsAnswered ctx.old ctx.new result }
    ensures privileged { (result ≡ After.System) ↔ IsPrivileged inst }
{
    perform(ctx, operation_of(inst))
}

/// Ends a load with the value that was read, of which the lowest `size` bytes count.
#[tactic(auto, unfolding(crate::specs::Meaning::after_load))]
pub fn finish_load(ctx: &mut Ctx, size: u8, signed: bool, rd: u8, value: u64)
    requires size { IsSize size }
    requires register { rd < 32 }
    ensures { ctx.new ≡ after_load ctx.old size signed rd value }
{
    let word = extended(cut(value, size), size, signed);
    ctx.set_register(rd, word);
    ctx.advance();
}

/// Ends a store.
pub fn finish_store(ctx: &mut Ctx)
    ensures { ctx.new ≡ advanced ctx.old }
{
    ctx.advance();
}

#[tactic(auto, unfolding(crate::specs::Meaning::effect))]
fn perform(ctx: &mut Ctx, operation: Operation) -> After
    requires { IsOperation operation }
    ensures context { ctx.new ≡ (effect ctx.old operation).context }
    ensures answer { result ≡ (effect ctx.old operation).answer }
    ensures answered { IsAnswered ctx.old ctx.new result }
    ensures privileged { (result ≡ After.System) ↔ (operation ≡ Operation.Privileged) }
{
    match operation {
        Operation::Compute {
            rd,
            how,
            left,
            right,
        } => {
            let value = result_of(how, operand(ctx, left), operand(ctx, right));
            compute(ctx, rd, value)
        }
        Operation::Jump { rd, offset } => {
            let target = offset_from(ctx.pc, offset);
            jump(ctx, rd, target)
        }
        Operation::JumpRegister { rd, rs1, imm } => {
            let target = even(offset_from(ctx.register(rs1), imm));
            jump(ctx, rd, target)
        }
        Operation::Branch {
            when,
            rs1,
            rs2,
            offset,
        } => {
            let taken = holds(when, ctx.register(rs1), ctx.register(rs2));
            branch(ctx, taken, offset)
        }
        Operation::Read {
            size,
            signed,
            rd,
            rs1,
            imm,
        } => {
            let addr = offset_from(ctx.register(rs1), imm);
            After::Load {
                addr,
                size,
                signed,
                rd,
            }
        }
        Operation::Write {
            size,
            rs1,
            rs2,
            imm,
        } => {
            let addr = offset_from(ctx.register(rs1), imm);
            let value = cut(ctx.register(rs2), size);
            After::Store { addr, size, value }
        }
        Operation::Skip => {
            ctx.advance();
            After::Done
        }
        Operation::Raise { cause } => After::Trap { cause, value: 0 },
        Operation::Sleep => sleep(ctx),
        Operation::Privileged => After::System,
    }
}

fn operand(ctx: &Ctx, operand: Operand) -> u64
    requires { IsOperand operand }
    ensures { result ≡ value_of ctx.now operand }
{
    match operand {
        Operand::Register(number) => ctx.register(number),
        Operand::Immediate(imm) => i64::from(imm).cast_unsigned(),
        Operand::Amount(amount) => u64::from(amount),
        Operand::Upper(imm) => word::sign_extend_word(imm << 12),
        Operand::Pc => ctx.pc,
        Operand::Zero => 0,
    }
}

fn holds(when: Condition, a: u64, b: u64) -> bool
    ensures { result ≡ holds when a b }
{
    match when {
        Condition::Equal => a == b,
        Condition::NotEqual => a != b,
        Condition::Less => alu::less_signed(a, b),
        Condition::NotLess => !alu::less_signed(a, b),
        Condition::LessUnsigned => a < b,
        Condition::NotLessUnsigned => a >= b,
    }
}

fn offset_from(base: u64, offset: i32) -> u64
    ensures { result ≡ offset_from base offset }
{
    base.wrapping_add(i64::from(offset).cast_unsigned())
}

fn even(address: u64) -> u64
    ensures { result ≡ even address }
{
    address & !1
}

fn compute(ctx: &mut Ctx, rd: u8, value: u64) -> After
    requires { rd < 32 }
    ensures context { ctx.new ≡ (computed ctx.old rd value).context }
    ensures answer { result ≡ (computed ctx.old rd value).answer }
{
    ctx.set_register(rd, value);
    ctx.advance();
    After::Done
}

fn jump(ctx: &mut Ctx, rd: u8, target: u64) -> After
    requires { rd < 32 }
    ensures context { ctx.new ≡ (jumped ctx.old rd target).context }
    ensures answer { result ≡ (jumped ctx.old rd target).answer }
{
    let next = ctx.pc.wrapping_add(4);
    if target % 4 != 0 {
        return After::Trap {
            cause: INSTRUCTION_ADDRESS_MISALIGNED,
            value: target,
        };
    }
    ctx.set_register(rd, next);
    ctx.pc = target;
    After::Done
}

fn branch(ctx: &mut Ctx, taken: bool, offset: i32) -> After
    ensures context { ctx.new ≡ (branched ctx.old taken offset).context }
    ensures answer { result ≡ (branched ctx.old taken offset).answer }
{
    if !taken {
        ctx.advance();
        return After::Done;
    }
    let target = offset_from(ctx.pc, offset);
    if target % 4 != 0 {
        return After::Trap {
            cause: INSTRUCTION_ADDRESS_MISALIGNED,
            value: target,
        };
    }
    ctx.pc = target;
    After::Done
}

fn sleep(ctx: &mut Ctx) -> After
    ensures context { ctx.new ≡ (slept ctx.old).context }
    ensures answer { result ≡ (slept ctx.old).answer }
{
    ctx.advance();
    if ctx.pins.pending() & ctx.mie == 0 {
        After::Wait
    } else {
        After::Done
    }
}

fn cut(value: u64, size: u8) -> u64
    requires { IsSize size }
    ensures { result ≡ value % 2 ^ (8 * size) }
{
    match size {
        1 => value % (1 << 8),
        2 => value % (1 << 16),
        4 => value % (1 << 32),
        _ => value,
    }
}

fn extended(value: u64, size: u8, signed: bool) -> u64
    requires size { IsSize size }
    requires fits { value < 2 ^ (8 * size) }
    ensures { result ≡ extended size signed value }
{
    if !signed {
        return value;
    }
    match size {
        1 => word::sign_extend_byte(value as u8),
        2 => word::sign_extend_half(value as u16),
        4 => word::sign_extend_word(value as u32),
        _ => value,
    }
}
