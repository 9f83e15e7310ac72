//! The entry of a trap, the return from it, and the interrupt that is taken.

ghost use Rattle.std.specs.Prelude.{◌≡◌, ℕ, ◌+◌, ◌^◌};
ghost use Rattle.hv_trap.specs.Trap.{trapped, chosen, returned};

use crate::csr::{is_set, status};
use crate::registers::{MEI, MSI, MSTATUS_MIE, MSTATUS_MPIE, MTI};
use hv_exec::Ctx;
use hv_exec::causes::{
    INTERRUPT, MACHINE_EXTERNAL_INTERRUPT, MACHINE_SOFTWARE_INTERRUPT, MACHINE_TIMER_INTERRUPT,
};

/// Enters a trap.
#[tactic(auto, unfolding(crate::specs::Trap::trapped))]
pub fn trap(ctx: &mut Ctx, cause: u64, value: u64)
    ensures { ctx.new ≡ trapped ctx.old cause value }
{
    ctx.mepc = ctx.pc;
    ctx.mcause = cause;
    ctx.mtval = value;
    ctx.mstatus = status(false, is_set(ctx.mstatus, MSTATUS_MIE));
    ctx.pc = ctx.mtvec;
}

// Goes back to where the trap was entered.
pub(crate) fn return_from_trap(ctx: &mut Ctx)
    ensures { ctx.new ≡ returned ctx.old }
{
    ctx.mstatus = status(is_set(ctx.mstatus, MSTATUS_MPIE), true);
    ctx.pc = ctx.mepc;
}

/// The cause of the interrupt that is taken now, or None where none is.
#[tactic(auto, unfolding(crate::specs::Trap::chosen))]
pub fn choose(ctx: &Ctx) -> Option<u64>
    ensures { result ≡ chosen ctx.now }
{
    if !is_set(ctx.mstatus, MSTATUS_MIE) {
        return None;
    }
    if ctx.pins.ext && is_set(ctx.mie, MEI) {
        return Some(INTERRUPT + MACHINE_EXTERNAL_INTERRUPT);
    }
    if ctx.pins.soft && is_set(ctx.mie, MSI) {
        return Some(INTERRUPT + MACHINE_SOFTWARE_INTERRUPT);
    }
    if ctx.pins.timer && is_set(ctx.mie, MTI) {
        return Some(INTERRUPT + MACHINE_TIMER_INTERRUPT);
    }
    None
}
