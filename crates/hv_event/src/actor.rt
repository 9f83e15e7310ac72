//! The word of an actor.
ghost use Rattle.std.specs.Prelude.{◌≡◌, ◌++◌, OnOk};
ghost use Rattle.hv_data.specs.Reading.{Reads};
ghost use Rattle.hv_event.specs.Line.{actor_text};
ghost use Rattle.hv_event.specs.Written.{IsActor};

use crate::event::ActorId;
use hv_data::{WordRefusal, number8_word};
use hv_text::{Bytes, push_decimal, strip_front};
use std::alloc::{AllocError, Global};

/// Appends an actor's word.
pub fn push_actor(alloc: Global, to: &mut Bytes, actor: ActorId) -> Result<(), AllocError>
    ensures { OnOk result (to.new ≡ to.old ++ actor_text actor) }
{
    match actor {
        ActorId::Hart(number) => {
            to.append(b"h")?;
            push_decimal(alloc, to, number as u64)
        }
        ActorId::Terminal(number) => {
            to.append(b"t")?;
            push_decimal(alloc, to, number as u64)
        }
    }
}

/// The actor of a word.
pub fn actor_word(alloc: Global, word: &[u8]) -> Result<ActorId, WordRefusal>
    ensures { Reads IsActor actor_text word.now result }
{
    if let Some(number) = strip_front(word, b"h") {
        return Ok(ActorId::Hart(number8_word(alloc, number)?));
    }
    if let Some(number) = strip_front(word, b"t") {
        return Ok(ActorId::Terminal(number8_word(alloc, number)?));
    }
    Err(WordRefusal::BadWord)
}
