//! What an actor makes is kept.
ghost use Rattle.std.specs.Prelude.{◌≡◌, ◌<◌, ◌≤◌, ◌+◌, ◌++◌, ◌∷◌, [], OnOk, vec_capacity, vec_len};
ghost use Rattle.hv_text.specs.declared.limits.TheConstants.{GREATEST_STAMP};
ghost use Rattle.hv_board.specs.Logged.{IsSameLog, event_of};

use crate::log::Log;
use hv_answer::Reply;
use hv_event::{ActorId, Event};
use hv_step::Step;
use std::alloc::{AllocError, Global};

impl Log {
    /// An actor that has made nothing.
    pub fn new(alloc: Global, actor: ActorId) -> Log
        ensures actor { result.actor ≡ actor }
        ensures count { result.count ≡ 0 }
        ensures stamp { result.stamp ≡ 0 }
        ensures events { result.events.items ≡ [] }
    {
        Log {
            actor,
            count: 0,
            stamp: 0,
            events: Vec::new(alloc),
        }
    }

    /// Makes room for the next event.
    pub fn make_room(&mut self) -> Result<(), AllocError>
        ensures same { IsSameLog self.old self.new }
        ensures room { OnOk result (vec_len self.new.events < vec_capacity self.new.events) }
    {
        self.events.reserve(1)
    }

    /// Adds the next event, which has this stamp.
    pub fn push(&mut self, stamp: u64, step: Step, reply: Reply)
        requires room { vec_len self.old.events < vec_capacity self.old.events }
        requires later { self.old.stamp < stamp }
        requires in_range { stamp ≤ GREATEST_STAMP }
        ensures events { self.new.events.items
            ≡ self.old.events.items ++ event_of self.old stamp step reply ∷ [] }
        ensures actor { self.new.actor ≡ self.old.actor }
        ensures count { self.new.count ≡ self.old.count + 1 }
        ensures stamp { self.new.stamp ≡ stamp }
    {
        self.count += 1;
        self.stamp = stamp;
        self.events.push_reserved(Event {
            actor: self.actor,
            index: self.count,
            stamp,
            step,
            reply,
        });
    }
}
