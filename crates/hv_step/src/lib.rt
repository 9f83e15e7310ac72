//! Steps: what an actor does, and the words of it in an event's line.
//!
//! Terms: the rows of a guest are its regions, by their index; a slot is where a guest stands, and its
//! generation is the slot and the guest's birth; a VCPU's step is made by its number, or by its guest.
#![tactic(auto)]

mod front;
mod hart;
mod name;
mod print;
mod read;
mod region;
mod spaced;
mod step;
mod vcpu;

pub use name::step_name;
pub use print::print_step;
pub use read::{read_step, steps_are_unambiguous};
pub use step::{
    Access, Add, Asm, Bad, Balance, ByGuest, Cat, Devreset, Dispatch, Drop, Dts, Fault, Feed,
    Fetch, Guests, Halt, Idle, Kick, Leave, Load, Look, Ls, Mem, Mkdir, Name, Output, Pause, Pin,
    Preempt, Regions, Reset, Rest, Resume, Rm, Run, Sample, Stage, Step, Take, Tick, Vadd, Vdrop,
    Write,
};

#[cfg(test)]
mod tests;
