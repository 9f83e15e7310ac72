//! The step of a hart that runs a VCPU.
ghost use Rattle.std.specs.Prelude.{◌≡◌, ◌↔◌, ℕ, List, None, true, IfSome};
ghost use Rattle.hv_event.specs.declared.event.ActorId.TheVariants.{Hart};
ghost use Rattle.hv_programs.specs.Hart.{current_of};
ghost use Rattle.hv_region.specs.declared.window.Window.{Window};
ghost use Rattle.hv_rules.specs.Carry.{Carry};
ghost use Rattle.hv_rules.specs.Hart.{Fits, runs, slot_of};
ghost use Rattle.hv_rules.specs.Vcpu.{runs_on as runs_at};
ghost use Rattle.hv_space.specs.Space.{SpaceState};
ghost use Rattle.hv_hart_choice.specs.Choice.{GoesOn, Hands, IsLed, SpaceAllows, VcpuAllows, step_of};

use crate::step::HartStep;
use hv_device_steps::window_reached;
use hv_kinds::{AccessKind, Generation};
use hv_programs::Running;
use hv_space::Space;
use hv_step::{Balance, Fault, Fetch, Leave, Preempt, Take};
use hv_text::GUEST_VCPUS;
use hv_trap::choose;
use hv_vcpu::Vcpu;
use hv_vcpu_steps::runs_on;

// The bytes of an instruction.
const INSTRUCTION_SIZE: u8 = 4;

/// What the VCPU that a hart runs decides alone: it is left where it doesn't run there any more, and
/// preempted once its slice is used; VCPU 0 balances the queues, and another takes the interrupt that
/// can be taken. None where it goes on with its instructions.
pub fn choose_turn(hart: u8, running: Running, vcpu: &Vcpu) -> Option<HartStep>
    ensures fits { IfSome result (λ s. (harts : ℕ) (c : Carry) → Hands harts None s c
        → Fits harts (runs (current_of running)) (step_of s) c) }
    ensures vcpu { IfSome result (VcpuAllows hart vcpu.now) }
    ensures space { IfSome result (λ s. (space : SpaceState) → SpaceAllows space s) }
    ensures led { IfSome result (λ s. (windows : List Window) (pc : ℕ) → IsLed windows pc s) }
    ensures none { result ≡ None ↔ GoesOn hart (current_of running) vcpu.now }
{
    let number = running.vcpu;
    if !runs_on(hart, vcpu) {
        return Some(HartStep::Leave(Leave { vcpu: number }));
    }
    if running.used == running.slice {
        return Some(HartStep::Preempt(Preempt { vcpu: number }));
    }
    if number == 0 {
        return Some(HartStep::Balance(Balance));
    }
    match choose(vcpu.ctx()) {
        Some(_) => Some(HartStep::Take(Take { vcpu: number })),
        None => None,
    }
}

/// The step of a VCPU that goes on with its instructions: it fetches from the row to which the window
/// leads that holds the one at its pc, and faults where none does.
pub fn choose_fetch(hart: u8, running: Running, vcpu: &Vcpu, space: &Space) -> HartStep
    requires { GoesOn hart (current_of running) vcpu.now }
    ensures fits { (harts : ℕ) (c : Carry)
        → Fits harts (runs (current_of running)) (step_of result) c }
    ensures vcpu { VcpuAllows hart vcpu.now result }
    ensures space { SpaceAllows space.now result }
    ensures led { IsLed space.now.windows vcpu.now.context.pc result }
{
    let pc = vcpu.ctx().pc;
    let generation = generation_of(hart, running.vcpu, vcpu);
    match window_reached(space, pc, INSTRUCTION_SIZE) {
        Some(window) => HartStep::Fetch(Fetch {
            vcpu: running.vcpu,
            row: window.target,
            generation,
        }),
        None => HartStep::Fault(Fault {
            vcpu: running.vcpu,
            address: pc,
            size: INSTRUCTION_SIZE,
            access: AccessKind::Execute,
            generation,
        }),
    }
}

// The guest that a VCPU is of which runs on a hart, by its number and its birth.
fn generation_of(hart: u8, number: u8, vcpu: &Vcpu) -> Generation
    requires { runs_at (Hart hart) vcpu.now.state ≡ true }
    ensures slot { result.slot ≡ slot_of number }
    ensures birth { result.birth ≡ vcpu.now.birth }
{
    let _ = hart;
    Generation {
        slot: number.saturating_sub(1) / GUEST_VCPUS as u8,
        birth: vcpu.birth().unwrap_or(0),
    }
}

/// The step of a hart that runs a VCPU, by the VCPU and the address space of its guest.
pub fn choose_running(hart: u8, running: Running, vcpu: &Vcpu, space: &Space) -> HartStep
    ensures fits { (harts : ℕ) (c : Carry) → Hands harts None result c
        → Fits harts (runs (current_of running)) (step_of result) c }
    ensures vcpu { VcpuAllows hart vcpu.now result }
    ensures space { SpaceAllows space.now result }
    ensures led { IsLed space.now.windows vcpu.now.context.pc result }
{
    match choose_turn(hart, running, vcpu) {
        Some(step) => step,
        None => choose_fetch(hart, running, vcpu, space),
    }
}
