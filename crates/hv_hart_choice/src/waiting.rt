//! The step of a hart whose VCPU waits for an access.
ghost use Rattle.std.specs.Prelude.{◌≡◌, ◌↔◌, ℕ, true, false, None, Some, IfSome};
ghost use Rattle.hv_event.specs.declared.event.ActorId.TheVariants.{Hart};
ghost use Rattle.hv_handed.specs.Given.{pended};
ghost use Rattle.hv_rules.specs.Carry.{Carry};
ghost use Rattle.hv_rules.specs.Hart.{Fits, waits};
ghost use Rattle.hv_rules.specs.Vcpu.{runs_on as runs_at};
ghost use Rattle.hv_vcpu.specs.Vcpu.{VcpuValue};
ghost use Rattle.hv_vcpu_steps.specs.Instructions.{is_run_of};
ghost use Rattle.hv_hart_choice.specs.Choice.{Hands, IsLed, SpaceAllows, VcpuAllows, step_of};

use crate::step::HartStep;
use hv_device_steps::window_reached;
use hv_handed::Pending;
use hv_kinds::{AccessKind, Direction, Generation};
use hv_space::Space;
use hv_step::{Access, Fault, Leave};
use hv_vcpu::Vcpu;
use hv_vcpu_steps::runs_on;

/// Leaves a VCPU that doesn't run on the hart any more; else it makes the access that is pending, or
/// takes its fault. None where the VCPU that runs there is of another guest than the access.
pub fn choose_waiting(
    hart: u8,
    number: u8,
    pending: Pending,
    generation: Generation,
    vcpu: &Vcpu,
    space: &Space,
) -> Option<HartStep>
    ensures fits { IfSome result (λ s. (harts : ℕ) (c : Carry)
        → Hands harts (Some (pended pending)) s c
        → Fits harts (waits number (pended pending) generation) (step_of s) c) }
    ensures vcpu { IfSome result (VcpuAllows hart vcpu.now) }
    ensures space { IfSome result (SpaceAllows space.now) }
    ensures led { IfSome result (IsLed space.now.windows vcpu.now.context.pc) }
    ensures none { result ≡ None ↔ (runs_at (Hart hart) vcpu.now.state ≡ true)
        × (is_run_of hart generation.birth vcpu.now ≡ false) }
{
    if !runs_on(hart, vcpu) {
        return Some(HartStep::Leave(Leave { vcpu: number }));
    }
    if vcpu.birth() != Some(generation.birth) {
        return None;
    }
    Some(choose_access(number, pending, generation, space))
}

/// Makes the access that is pending in the row to which the window leads that holds it, and takes its
/// fault where none does.
pub fn choose_access(
    number: u8,
    pending: Pending,
    generation: Generation,
    space: &Space,
) -> HartStep
    ensures fits { (harts : ℕ) (c : Carry) → Hands harts (Some (pended pending)) result c
        → Fits harts (waits number (pended pending) generation) (step_of result) c }
    ensures vcpu { (hart : ℕ) (v : VcpuValue) → is_run_of hart generation.birth v ≡ true
        → VcpuAllows hart v result }
    ensures space { SpaceAllows space.now result }
    ensures led { (pc : ℕ) → IsLed space.now.windows pc result }
{
    match pending {
        Pending::Load { address, size, .. } => match window_reached(space, address, size) {
            Some(window) => HartStep::Access(Access {
                vcpu: number,
                row: window.target,
                address,
                size,
                direction: Direction::Read,
                value: 0,
                generation,
            }),
            None => HartStep::Fault(Fault {
                vcpu: number,
                address,
                size,
                access: AccessKind::Read,
                generation,
            }),
        },
        Pending::Store {
            address,
            size,
            value,
        } => match window_reached(space, address, size) {
            Some(window) => HartStep::Access(Access {
                vcpu: number,
                row: window.target,
                address,
                size,
                direction: Direction::Write,
                value,
                generation,
            }),
            None => HartStep::Fault(Fault {
                vcpu: number,
                address,
                size,
                access: AccessKind::Write,
                generation,
            }),
        },
    }
}
