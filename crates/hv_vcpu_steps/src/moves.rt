//! Moves of VCPUs, as steps answer them.
ghost use Rattle.std.specs.Prelude.{◌≡◌, ◌<◌, Some, IsTrue};
ghost use Rattle.hv_event.specs.declared.event.ActorId.TheVariants.{Hart};
ghost use Rattle.hv_rules.specs.Vcpu.{answered, name_of, runs_on};
ghost use Rattle.hv_vcpu.specs.Table.{is_running, led};
ghost use Rattle.hv_vcpu.specs.Vcpu.{IsMove, plan_of, stepped};

use hv_kinds::{State, StateName};
use hv_refusal::Refusal;
use hv_vcpu::{Move, Vcpu};

// The name of a state, as a refusal shows it.
fn name_of(state: State) -> StateName
    ensures { result ≡ name_of state }
{
    match state {
        State::Unknown => StateName::Unknown,
        State::Reset => StateName::Reset,
        State::Ready => StateName::Ready,
        State::Running(_) => StateName::Running,
        State::Paused(_) => StateName::Paused,
        State::Halted => StateName::Halted,
    }
}

/// Makes a move, or says why it is refused.
pub(crate) fn make_move(vcpu: &mut Vcpu, to: Move) -> Result<(), Refusal>
    requires { IsMove to }
    ensures answer { result ≡ answered (led to vcpu.old.state) }
    ensures after { vcpu.new ≡ stepped to vcpu.old }
{
    match vcpu.step(to) {
        Ok(()) => Ok(()),
        Err(wrong) => Err(Refusal::WrongState(name_of(wrong.0))),
    }
}

/// The priority of a VCPU that is there.
pub(crate) fn priority_of(vcpu: &Vcpu) -> u8
    ensures range { result < 8 }
    ensures value { plan_of vcpu.now ≡ Some vcpu.now.plan → result ≡ vcpu.now.plan.priority }
{
    if vcpu.state() == State::Unknown {
        return 0;
    }
    match vcpu.plan() {
        Some(plan) => plan.priority,
        None => 0,
    }
}

/// The slice of a VCPU that is there.
pub(crate) fn slice_of(vcpu: &Vcpu) -> u32
    ensures { plan_of vcpu.now ≡ Some vcpu.now.plan → result ≡ vcpu.now.plan.slice }
{
    match vcpu.plan() {
        Some(plan) => plan.slice,
        None => 1,
    }
}

/// Whether a VCPU runs on a hart.
pub fn runs_on(hart: u8, vcpu: &Vcpu) -> bool
    ensures here { result ≡ runs_on (Hart hart) vcpu.now.state }
    ensures running { IsTrue result → IsTrue (is_running vcpu.now.state) }
{
    match vcpu.state() {
        State::Running(number) => hart == number,
        _ => false,
    }
}
