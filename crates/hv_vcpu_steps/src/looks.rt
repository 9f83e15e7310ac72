//! Looks at VCPUs.
ghost use Rattle.std.specs.Prelude.{◌≡◌, IfOk, length, drop};
ghost use Rattle.hv_event.specs.declared.event.ActorId.{ActorId};
ghost use Rattle.hv_handed.specs.Given.{given};
ghost use Rattle.hv_handed.specs.Takes.{VcpuTakes};
ghost use Rattle.hv_rules.specs.Handed.{handed_over};
ghost use Rattle.hv_rules.specs.Vcpu.{look_in, no_registers, shown_registers};
ghost use Rattle.hv_step.specs.declared.step.Step.TheVariants as steps;

use hv_answer::Reply;
use hv_emu::Emulator;
use hv_exec::Ctx;
use hv_handed::{Handed, hand_nothing};
use hv_kinds::State;
use hv_look::{BoxedLook, Csrs, Look as Shown, Registers};
use hv_step::Look;
use hv_trap::mstatus;
use hv_vcpu::Vcpu;
use std::alloc::{AllocError, Global};

// What a VCPU of no guest shows of its registers.
const NO_REGISTERS: Registers = Registers {
    pc: 0,
    x: [0; 31],
    csrs: Csrs {
        mstatus: 0,
        mie: 0,
        mtvec: 0,
        mscratch: 0,
        mepc: 0,
        mcause: 0,
        mtval: 0,
    },
};

/// Looks at the state and the registers of a VCPU.
pub fn look<E: Emulator>(
    alloc: Global,
    step: Look,
    vcpu: &Vcpu,
) -> Result<(Reply, Handed<E>), AllocError>
    ensures vcpu { IfOk result (λ made. (by : ActorId) → VcpuTakes by (steps.Look step) made.0
        (given E.state made.1.value) vcpu.now vcpu.now) }
    ensures handed { IfOk result (λ made. handed_over (steps.Look step)
        (given E.state made.1.value) ≡ given E.state made.1.value) }
{
    let _ = step;
    let look = BoxedLook::new(alloc, look_at(vcpu))?;
    Ok((Reply::Look(look), hand_nothing()))
}

// What a VCPU shows.
fn look_at(vcpu: &Vcpu) -> Shown
    ensures { result ≡ look_in vcpu.now.state vcpu.now }
{
    match vcpu.plan() {
        None => Shown {
            state: State::Unknown,
            priority: 0,
            slice: 0,
            registers: NO_REGISTERS,
        },
        Some(plan) => Shown {
            state: vcpu.state(),
            priority: plan.priority,
            slice: plan.slice,
            registers: registers_of(vcpu.ctx()),
        },
    }
}

// What a look shows of a context.
fn registers_of(ctx: &Ctx) -> Registers
    ensures { result ≡ shown_registers ctx.now }
{
    Registers {
        pc: ctx.pc,
        x: writable(&ctx.x),
        csrs: Csrs {
            mstatus: mstatus(ctx),
            mie: ctx.mie,
            mtvec: ctx.mtvec,
            mscratch: ctx.mscratch,
            mepc: ctx.mepc,
            mcause: ctx.mcause,
            mtval: ctx.mtval,
        },
    }
}

// The registers x1 to x31.
fn writable(x: &[u64; 32]) -> [u64; 31]
    ensures { result ≡ drop 1 x.now }
{
    let mut shown = [0; 31];
    shown.copy_from_slice(&x[1..]);
    shown
}
