//! Events of a run: who made which step, when, and with what reply; and the line of each.
//!
//! Terms: an actor is a hart or a terminal; the index counts an actor's events from 1; the stamp is
//! the event's logical time; a reply is what came of the step.
#![tactic(auto)]

mod actor;
mod event;
mod print;
mod read;
mod refusal;

pub use event::{ActorId, CellId, Event};
pub use hv_answer::{Accessed, Fetched, Moved, Outcome, Pinned, Reply, Sampled};
pub use hv_kinds::{
    AccessKind, Cause, Direction, Generation, Pins, SignalChanges, State, StateName,
};
pub use hv_listing::{GuestList, ListedGuest, ListedWindow, WindowList};
pub use hv_refusal::{Refusal, print_refusal};
pub use hv_step::{
    Access, Add, Asm, Bad, Balance, ByGuest, Cat, Devreset, Dispatch, Drop, Dts, Fault, Feed,
    Fetch, Guests, Halt, Idle, Kick, Leave, Load, Look, Ls, Mem, Mkdir, Name, Output, Pause, Pin,
    Preempt, Regions, Reset, Rest, Resume, Rm, Run, Sample, Stage, Step, Take, Tick, Vadd, Vdrop,
    Write,
};
pub use print::print_event;
pub use read::{lines_are_unambiguous, read_event};
pub use refusal::LineRefusal;

#[cfg(test)]
mod tests;
