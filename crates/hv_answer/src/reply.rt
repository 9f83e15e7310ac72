//! Replies: what came of a step.
use hv_kinds::{Generation, Pins, SignalChanges, State};
use hv_listing::{GuestList, WindowList};
use hv_look::BoxedLook;
use hv_refusal::Refusal;
use hv_text::{Bytes, Strings};

/// What came of an instruction that was fetched.
#[derive(Clone, Copy, Debug, PartialEq, Eq)]
pub enum Outcome {
    /// It was carried out.
    Done,
    /// It was carried out, and the VCPU waits for an interrupt.
    Wait,
    /// It loads or stores, which is a step of its own.
    Access,
    /// It trapped with this cause.
    Trap(u64),
}

/// An instruction that was fetched.
#[derive(Clone, Copy, Debug, PartialEq, Eq)]
pub struct Fetched {
    pub word: u32,
    pub outcome: Outcome,
}

/// A load or a store that a region answered.
#[derive(Clone, Copy, Debug, PartialEq, Eq)]
pub struct Accessed {
    /// What a load read, and 0 for a store.
    pub value: u64,
    pub changes: SignalChanges,
}

/// A VCPU that moved to another hart's queue.
#[derive(Clone, Copy, Debug, PartialEq, Eq)]
pub struct Moved {
    pub vcpu: u8,
    pub from: u8,
    pub to: u8,
}

/// A level that an interrupt controller took from a line.
#[derive(Clone, Copy, Debug, PartialEq, Eq)]
pub struct Sampled {
    pub level: bool,
    /// What changed of the controller's signals.
    pub changes: SignalChanges,
}

/// Pins that a VCPU took from a region.
#[derive(Clone, Copy, Debug, PartialEq, Eq)]
pub struct Pinned {
    pub pins: Pins,
    /// Whether the VCPU woke.
    pub woke: bool,
}

/// One variant for each step: what it gives, or why it is refused.
#[derive(Debug, Drop)]
pub enum Reply {
    Bad(Refusal),
    Rest,
    /// The names in the folder; a folder's name has a `/` behind it.
    Ls(Result<Strings, Refusal>),
    Cat(Result<Bytes, Refusal>),
    /// The bytes of the source.
    Dts(Result<Bytes, Refusal>),
    /// The bytes of the script.
    Run(Result<Bytes, Refusal>),
    Mkdir(Result<(), Refusal>),
    Rm(Result<(), Refusal>),
    Write(Result<(), Refusal>),
    /// The number of words in the image.
    Asm(Result<u64, Refusal>),
    /// The guests of the directory, by slot.
    Guests(GuestList),
    /// The slot and the birth of the guest.
    Name(Result<Generation, Refusal>),
    Stage(Result<(), Refusal>),
    Add(Result<SignalChanges, Refusal>),
    Drop(Result<SignalChanges, Refusal>),
    /// The windows, memory before I/O, by base.
    Regions(Result<WindowList, Refusal>),
    /// The number of bytes that were loaded.
    Load(Result<u64, Refusal>),
    Mem(Result<Bytes, Refusal>),
    Devreset(Result<SignalChanges, Refusal>),
    Feed(Result<SignalChanges, Refusal>),
    Output(Result<Bytes, Refusal>),
    Vadd(Result<(), Refusal>),
    Vdrop(Result<(), Refusal>),
    Kick(Result<(), Refusal>),
    Resume(Result<(), Refusal>),
    Pause(Result<(), Refusal>),
    Halt(Result<(), Refusal>),
    Reset(Result<(), Refusal>),
    Look(BoxedLook),
    /// Nothing where the guest has no live clock.
    Tick(Option<SignalChanges>),
    Idle,
    /// The slice of the VCPU.
    Dispatch(Result<u32, Refusal>),
    Preempt,
    /// The state in which the VCPU was found.
    Leave(State),
    /// The cause of the interrupt.
    Take(u64),
    /// Nothing where the region gives no instructions.
    Fetch(Option<Fetched>),
    /// Nothing where the region denied the access.
    Access(Option<Accessed>),
    /// The cause of the trap.
    Fault(u64),
    /// Nothing where no VCPU moved.
    Balance(Option<Moved>),
    /// Nothing where the controller is gone.
    Sample(Option<Sampled>),
    /// Nothing where the VCPU's guest is gone.
    Pin(Option<Pinned>),
}
