//! Steps that harts choose.
ghost use Rattle.std.specs.Prelude.{◌≡◌};
ghost use Rattle.hv_hart_choice.specs.Choice.{step_of};

use hv_step::{Access, Balance, Dispatch, Fault, Fetch, Idle, Leave, Preempt, Step, Take};

/// A step that a hart chooses by its components, and neither owes nor makes once a turn.
#[derive(Clone, Copy, Debug)]
pub enum HartStep {
    Idle(Idle),
    Dispatch(Dispatch),
    Preempt(Preempt),
    Leave(Leave),
    Take(Take),
    Balance(Balance),
    Fetch(Fetch),
    Access(Access),
    Fault(Fault),
}

impl HartStep {
    /// The step itself.
    pub fn step(self) -> Step
        ensures { result ≡ step_of self }
    {
        match self {
            HartStep::Idle(idle) => Step::Idle(idle),
            HartStep::Dispatch(dispatch) => Step::Dispatch(dispatch),
            HartStep::Preempt(preempt) => Step::Preempt(preempt),
            HartStep::Leave(leave) => Step::Leave(leave),
            HartStep::Take(take) => Step::Take(take),
            HartStep::Balance(balance) => Step::Balance(balance),
            HartStep::Fetch(fetch) => Step::Fetch(fetch),
            HartStep::Access(access) => Step::Access(access),
            HartStep::Fault(fault) => Step::Fault(fault),
        }
    }
}
