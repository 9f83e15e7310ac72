//! The names of the steps.
ghost use Rattle.std.specs.Prelude.{◌≡◌, ◌++◌, OnOk, OnErr};
ghost use Rattle.hv_name.specs.StepName.{name_word};

use hv_text::Bytes;
use std::alloc::AllocError;

/// The name of a step.
#[derive(Clone, Copy, Debug, PartialEq, Eq)]
pub enum StepName {
    // Those of terminals: lines that are no command, and files.
    Bad,
    Rest,
    Ls,
    Cat,
    Dts,
    Run,
    Mkdir,
    Rm,
    Write,
    Asm,
    // Those of guests and their regions.
    Guests,
    Name,
    Stage,
    Add,
    Drop,
    Regions,
    Load,
    Mem,
    Devreset,
    Feed,
    Output,
    // Those of VCPUs.
    Vadd,
    Vdrop,
    Kick,
    Resume,
    Pause,
    Halt,
    Reset,
    Look,
    // Those of harts, and of the signals that devices send.
    Tick,
    Idle,
    Dispatch,
    Preempt,
    Leave,
    Take,
    Fetch,
    Access,
    Fault,
    Balance,
    Sample,
    Pin,
}

/// Appends the word for a name. At `Err` nothing has changed.
pub fn push_name(to: &mut Bytes, name: StepName) -> Result<(), AllocError>
    ensures ok { OnOk result (to.new ≡ to.old ++ name_word name) }
    ensures err { OnErr result (to.new ≡ to.old) }
{
    match name {
        StepName::Bad => to.append(b"bad"),
        StepName::Rest => to.append(b"rest"),
        StepName::Ls => to.append(b"ls"),
        StepName::Cat => to.append(b"cat"),
        StepName::Dts => to.append(b"dts"),
        StepName::Run => to.append(b"run"),
        StepName::Mkdir => to.append(b"mkdir"),
        StepName::Rm => to.append(b"rm"),
        StepName::Write => to.append(b"write"),
        StepName::Asm => to.append(b"asm"),
        StepName::Guests => to.append(b"guests"),
        StepName::Name => to.append(b"name"),
        StepName::Stage => to.append(b"stage"),
        StepName::Add => to.append(b"add"),
        StepName::Drop => to.append(b"drop"),
        StepName::Regions => to.append(b"regions"),
        StepName::Load => to.append(b"load"),
        StepName::Mem => to.append(b"mem"),
        StepName::Devreset => to.append(b"devreset"),
        StepName::Feed => to.append(b"feed"),
        StepName::Output => to.append(b"output"),
        StepName::Vadd => to.append(b"vadd"),
        StepName::Vdrop => to.append(b"vdrop"),
        StepName::Kick => to.append(b"kick"),
        StepName::Resume => to.append(b"resume"),
        StepName::Pause => to.append(b"pause"),
        StepName::Halt => to.append(b"halt"),
        StepName::Reset => to.append(b"reset"),
        StepName::Look => to.append(b"look"),
        StepName::Tick => to.append(b"tick"),
        StepName::Idle => to.append(b"idle"),
        StepName::Dispatch => to.append(b"dispatch"),
        StepName::Preempt => to.append(b"preempt"),
        StepName::Leave => to.append(b"leave"),
        StepName::Take => to.append(b"take"),
        StepName::Fetch => to.append(b"fetch"),
        StepName::Access => to.append(b"access"),
        StepName::Fault => to.append(b"fault"),
        StepName::Balance => to.append(b"balance"),
        StepName::Sample => to.append(b"sample"),
        StepName::Pin => to.append(b"pin"),
    }
}
