//! What a hart's own state says of its next step.
use crate::owed::OwedStep;
use hv_handed::Pending;
use hv_kinds::Generation;

/// The VCPU that a hart runs, with how many turns it may use and how many it used.
#[derive(Clone, Copy, Debug)]
pub struct Running {
    pub vcpu: u8,
    pub slice: u32,
    pub used: u32,
}

/// What a hart's own state says of its next step.
#[derive(Clone, Copy, Debug)]
pub enum Row {
    /// A step that it owes.
    Owes(OwedStep),
    /// The access that is pending, or its fault, or the VCPU is left.
    Waits {
        vcpu: u8,
        pending: Pending,
        generation: Generation,
    },
    /// Nothing: its turns are made.
    Ends,
    /// The tick of a slot's clock.
    Ticks {
        slot: u8,
    },
    /// A VCPU is dispatched, if one is ready.
    Free,
    /// A step of the VCPU that it runs.
    Runs(Running),
}
