//! An event with what its step handed over.
use hv_event::Event;
use std::marker::Model;

/// The data handed over between the parts of a step that its event doesn't show. Contracts see all
/// that a step may hand over.
#[derive(Debug, Drop)]
pub struct Carry {
    /// The number of a file's lines, from the files to the terminal that runs it as a script.
    pub lines: Option<u64>,
}

impl Model for Carry {
    ghost use Rattle.hv_rules.specs.Carry.{Carry as Handed, nothing};

    ghost Value = { Handed };

    ghost view = { λ c. record nothing { lines = c.lines } };
}

/// An event with its carry.
#[derive(Debug, Drop)]
pub struct Entry {
    pub event: Event,
    pub carry: Carry,
}
