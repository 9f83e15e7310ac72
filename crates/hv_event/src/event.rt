//! An event, its actor, and what it touches.
use hv_answer::Reply;
use hv_step::Step;

/// Who makes a step.
#[derive(Clone, Copy, Debug, PartialEq, Eq)]
pub enum ActorId {
    Hart(u8),
    Terminal(u8),
}

/// A component that steps touch beside their actor.
#[derive(Clone, Copy, Debug, PartialEq, Eq)]
pub enum CellId {
    /// The directory of the guests.
    Dir,
    /// The devices that no guest has.
    Shelf,
    /// The file tree.
    Files,
    /// The address space of the guest in this slot.
    Space(u8),
    /// The queue of the hart of this number.
    Queue(u8),
    /// The VCPU of this number, 0 to 32.
    Vcpu(u8),
    /// The contents of a region, by slot and row.
    Body(u8, u8),
    /// The area of this number.
    Area(u8),
}

/// One step of one actor.
#[derive(Debug, Drop)]
pub struct Event {
    pub actor: ActorId,
    /// The number of this event among its actor's, from 1.
    pub index: u64,
    /// The logical time stamp.
    pub stamp: u64,
    pub step: Step,
    pub reply: Reply,
}
