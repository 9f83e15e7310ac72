//! Events read from their lines.
ghost use Rattle.std.specs.Prelude.{◌≡◌, Ok, Err, MatchResult, IfOk};
ghost use Rattle.hv_data.specs.Reading.{Because};
ghost use Rattle.hv_event.specs.declared.event.Event.{Event};
ghost use Rattle.hv_event.specs.Line.{event_text};
ghost use Rattle.hv_event.specs.Written.{IsWritten};
ghost use Rattle.hv_event.specs.Reading.{AreEventWords, AreRead, IsUnlessMemory, IsNoEventLine};

use crate::actor::actor_word;
use crate::event::Event;
use crate::refusal::LineRefusal;
use hv_answer::read_reply;
use hv_data::{WordRefusal, behind_word, number_word, split_at_byte};
use hv_step::{read_step, step_name};
use hv_text::Bytes;
use std::alloc::Global;

/// The event of words.
fn read_words(alloc: Global, words: &[Bytes]) -> Result<Event, WordRefusal>
    ensures { MatchResult result
        (λ event. AreEventWords words.now event)
        (λ e. Because e ((event : Event) → AreEventWords words.now event → ⊥)) }
{
    let [stamp, actor, index, rest @ ..] = words else {
        return Err(WordRefusal::BadWord);
    };
    let stamp = number_word(alloc, stamp.as_slice())?;
    let actor = actor_word(alloc, actor.as_slice())?;
    let index = number_word(alloc, index.as_slice())?;
    let (step, behind) = read_step(alloc, rest)?;
    let Some(reply) = behind_word(behind, b"->") else {
        return Err(WordRefusal::BadWord);
    };
    let reply = read_reply(alloc, step_name(&step), reply)?;
    Ok(Event {
        actor,
        index,
        stamp,
        step,
        reply,
    })
}

/// The event of words, with the refusal of a line.
fn read_line(alloc: Global, words: &[Bytes]) -> Result<Event, LineRefusal>
    ensures { AreRead words.now result }
{
    match read_words(alloc, words) {
        Ok(event) => Ok(event),
        Err(WordRefusal::BadWord) => Err(LineRefusal::BadLine),
        Err(WordRefusal::Memory(error)) => Err(LineRefusal::Memory(error)),
    }
}

/// The event of a line, which `print_event` writes so.
pub fn read_event(alloc: Global, line: &[u8]) -> Result<Event, LineRefusal>
    // The line is that of what was read.
    ensures found { IfOk result (λ event. IsWritten event × (line.now ≡ event_text event)) }

    // The line of a written event is read as this event, unless memory runs out.
    ensures event { (event : Event)
        → IsWritten event → line.now ≡ event_text event → IsUnlessMemory result (Ok event) }

    // It is refused exactly where it is the line of no written event.
    ensures bad { result ≡ Err LineRefusal.BadLine → IsNoEventLine line.now }
    ensures none { IsNoEventLine line.now → IsUnlessMemory result (Err LineRefusal.BadLine) }
{
    let words = split_at_byte(alloc, line, b' ')?;
    read_line(alloc, &words)
}

/// Two written events of one line are one event.
pub fn lines_are_unambiguous()
    ensures { (one other : Event)
        → IsWritten one → IsWritten other → event_text one ≡ event_text other → one ≡ other }
{}
