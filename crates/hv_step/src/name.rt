//! The names of steps.
ghost use Rattle.std.specs.Prelude.{◌≡◌};
ghost use Rattle.hv_step.specs.Words.{name_of};

use crate::step::Step;
use hv_name::StepName;

/// The name of a step.
pub fn step_name(step: &Step) -> StepName
    ensures { result ≡ name_of step.now }
{
    match step {
        Step::Bad(_) => StepName::Bad,
        Step::Rest(_) => StepName::Rest,
        Step::Ls(_) => StepName::Ls,
        Step::Cat(_) => StepName::Cat,
        Step::Dts(_) => StepName::Dts,
        Step::Run(_) => StepName::Run,
        Step::Mkdir(_) => StepName::Mkdir,
        Step::Rm(_) => StepName::Rm,
        Step::Write(_) => StepName::Write,
        Step::Asm(_) => StepName::Asm,
        Step::Guests(_) => StepName::Guests,
        Step::Name(_) => StepName::Name,
        Step::Stage(_) => StepName::Stage,
        Step::Add(_) => StepName::Add,
        Step::Drop(_) => StepName::Drop,
        Step::Regions(_) => StepName::Regions,
        Step::Load(_) => StepName::Load,
        Step::Mem(_) => StepName::Mem,
        Step::Devreset(_) => StepName::Devreset,
        Step::Feed(_) => StepName::Feed,
        Step::Output(_) => StepName::Output,
        Step::Vadd(_) => StepName::Vadd,
        Step::Vdrop(_) => StepName::Vdrop,
        Step::Kick(_) => StepName::Kick,
        Step::Resume(_) => StepName::Resume,
        Step::Pause(_) => StepName::Pause,
        Step::Halt(_) => StepName::Halt,
        Step::Reset(_) => StepName::Reset,
        Step::Look(_) => StepName::Look,
        Step::Tick(_) => StepName::Tick,
        Step::Idle(_) => StepName::Idle,
        Step::Dispatch(_) => StepName::Dispatch,
        Step::Preempt(_) => StepName::Preempt,
        Step::Leave(_) => StepName::Leave,
        Step::Take(_) => StepName::Take,
        Step::Fetch(_) => StepName::Fetch,
        Step::Access(_) => StepName::Access,
        Step::Fault(_) => StepName::Fault,
        Step::Balance(_) => StepName::Balance,
        Step::Sample(_) => StepName::Sample,
        Step::Pin(_) => StepName::Pin,
    }
}
