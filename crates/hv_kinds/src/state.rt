//! The states of a VCPU.

/// What a VCPU does.
#[derive(Clone, Copy, Debug, PartialEq, Eq)]
pub enum State {
    Unknown,
    Reset,
    Ready,
    /// It runs on the hart of this number.
    Running(u8),
    /// It is paused; whether it waits for an interrupt.
    Paused(bool),
    Halted,
}

/// A state without its hart and without whether it waits.
#[derive(Clone, Copy, Debug, PartialEq, Eq)]
pub enum StateName {
    Unknown,
    Reset,
    Ready,
    Running,
    Paused,
    Halted,
}
