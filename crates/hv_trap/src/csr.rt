//! The control and status registers.

ghost use Rattle.std.specs.Prelude.{◌≡◌, ℕ, ◌+◌, ◌-◌, ◌*◌, ◌/◌, ◌%◌, ◌^◌, ◌<◌};
ghost use Rattle.hv_trap.specs.Csr as csrs;
ghost use Rattle.hv_trap.specs.Csr.{is_set, csr_of, mstatus_of, status, written, is_read_only, word_aligned};

use crate::registers::{
    MACHINE_MODE, MCAUSE, MEI, MEPC, MHARTID, MIE, MIP, MSCRATCH, MSI, MSTATUS, MSTATUS_MIE,
    MSTATUS_MPIE, MSTATUS_MPP, MTI, MTVAL, MTVEC,
};
use hv_exec::Ctx;

/// A register.
#[derive(Clone, Copy, Drop)]
pub enum Csr {
    Mstatus,
    Mie,
    Mtvec,
    Mscratch,
    Mepc,
    Mcause,
    Mtval,
    Mip,
    Mhartid,
}

/// How an instruction changes a register.
#[derive(Clone, Copy, Drop)]
pub enum Change {
    Keep,
    Replace,
    Set,
    Clear,
}

// The bits that mie keeps.
const INTERRUPTS: u64 = (1 << MSI) + (1 << MTI) + (1 << MEI);

// MPP of mstatus, which is always machine mode.
const MPP: u64 = MACHINE_MODE << MSTATUS_MPP;

/// mstatus as an instruction reads it.
pub fn mstatus(ctx: &Ctx) -> u64
    ensures { result ≡ mstatus_of ctx.now }
{
    let enabled = is_set(ctx.mstatus, MSTATUS_MIE);
    let previous = is_set(ctx.mstatus, MSTATUS_MPIE);
    status(enabled, previous) + MPP
}

pub(crate) fn csr_of(number: u16) -> Option<Csr>
    ensures { result ≡ csr_of number }
{
    match number {
        MSTATUS => Some(Csr::Mstatus),
        MIE => Some(Csr::Mie),
        MTVEC => Some(Csr::Mtvec),
        MSCRATCH => Some(Csr::Mscratch),
        MEPC => Some(Csr::Mepc),
        MCAUSE => Some(Csr::Mcause),
        MTVAL => Some(Csr::Mtval),
        MIP => Some(Csr::Mip),
        MHARTID => Some(Csr::Mhartid),
        _ => None,
    }
}

pub(crate) fn is_read_only(csr: Csr) -> bool
    ensures { result ≡ is_read_only csr }
{
    matches!(csr, Csr::Mhartid)
}

pub(crate) fn read(ctx: &Ctx, csr: Csr) -> u64
    ensures { result ≡ csrs.read ctx.now csr }
{
    match csr {
        Csr::Mstatus => mstatus(ctx),
        Csr::Mie => ctx.mie,
        Csr::Mtvec => ctx.mtvec,
        Csr::Mscratch => ctx.mscratch,
        Csr::Mepc => ctx.mepc,
        Csr::Mcause => ctx.mcause,
        Csr::Mtval => ctx.mtval,
        Csr::Mip => ctx.pins.pending(),
        Csr::Mhartid => ctx.hartid,
    }
}

pub(crate) fn write(ctx: &mut Ctx, csr: Csr, value: u64)
    ensures { ctx.new ≡ written ctx.old csr value }
{
    match csr {
        Csr::Mstatus => ctx.mstatus = status(
            is_set(value, MSTATUS_MIE),
            is_set(value, MSTATUS_MPIE),
        ),
        Csr::Mie => ctx.mie = value & INTERRUPTS,
        Csr::Mtvec => ctx.mtvec = word_aligned(value),
        Csr::Mscratch => ctx.mscratch = value,
        Csr::Mepc => ctx.mepc = word_aligned(value),
        Csr::Mcause => ctx.mcause = value,
        Csr::Mtval => ctx.mtval = value,
        Csr::Mip | Csr::Mhartid => (),
    }
}

fn word_aligned(address: u64) -> u64
    ensures { result ≡ word_aligned address }
{
    address & !3
}

pub(crate) fn is_set(word: u64, bit: u32) -> bool
    requires { bit < 64 }
    ensures { result ≡ is_set word bit }
{
    (word >> bit) % 2 == 1
}

// mstatus with these MIE and MPIE.
pub(crate) fn status(enabled: bool, previous: bool) -> u64
    ensures { result ≡ status enabled previous }
{
    let mie = if enabled { 1 << MSTATUS_MIE } else { 0 };
    let mpie = if previous { 1 << MSTATUS_MPIE } else { 0 };
    mie + mpie
}
