//! A whole instruction, but for the access of a load or a store.
ghost use Rattle.std.specs.Prelude.{◌≡◌, ℕ, ◌%◌};
ghost use Rattle.hv_vcpu.specs.Instruction.{attempted, carried_out, entered, IsAttempted, IsCarriedOut};

use hv_exec::causes::{ILLEGAL_INSTRUCTION, LOAD_ADDRESS_MISALIGNED, STORE_ADDRESS_MISALIGNED};
use hv_exec::{After, Ctx, exec};
use hv_isa::decode;
use hv_trap::{system, trap};

/// Carries out the instruction that a word is. A trap is entered.
#[tactic(auto, unfolding(crate::specs::Instruction::carried_out))]
pub(crate) fn carry_out(ctx: &mut Ctx, word: u32) -> After
    ensures context { ctx.new ≡ (carried_out ctx.old word).context }
    ensures answer { result ≡ (carried_out ctx.old word).answer }
    ensures whole { IsCarriedOut ctx.old ctx.new result }
    ensures pins { ctx.new.pins ≡ ctx.old.pins }
{
    let after = attempt(ctx, word);
    if let After::Trap { cause, value } = after {
        trap(ctx, cause, value);
    }
    after
}

// The same, but for the entry of a trap.
fn attempt(ctx: &mut Ctx, word: u32) -> After
    ensures context { ctx.new ≡ (attempted ctx.old word).context }
    ensures answer { result ≡ (attempted ctx.old word).answer }
    ensures attempted { IsAttempted ctx.old ctx.new result }
    ensures pins { ctx.new.pins ≡ ctx.old.pins }
{
    let Some(inst) = decode(word) else {
        return After::Trap {
            cause: ILLEGAL_INSTRUCTION,
            value: u64::from(word),
        };
    };
    match exec(ctx, inst) {
        After::System => system(ctx, inst),
        After::Load { addr, size, .. } if addr % u64::from(size) != 0 => After::Trap {
            cause: LOAD_ADDRESS_MISALIGNED,
            value: addr,
        },
        After::Store { addr, size, .. } if addr % u64::from(size) != 0 => After::Trap {
            cause: STORE_ADDRESS_MISALIGNED,
            value: addr,
        },
        after => after,
    }
}
