//! What an actor made.
ghost use Rattle.std.specs.Prelude.{◌≤◌};
ghost use Rattle.hv_text.specs.declared.limits.TheConstants.{GREATEST_STAMP};

use hv_event::{ActorId, Event};

/// The events of an actor.
#[derive(Drop)]
pub struct Log {
    pub actor: ActorId,
    /// How many events it made.
    pub count: u64,
    /// The stamp of its last event, or that with which it began.
    pub stamp: u64,
    pub events: Vec<Event>,
    ghost count_bounded: { count ≤ stamp },
    ghost stamp_bounded: { stamp ≤ GREATEST_STAMP },
}
