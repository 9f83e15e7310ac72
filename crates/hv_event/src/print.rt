//! Events printed as their lines.
ghost use Rattle.std.specs.Prelude.{◌≡◌, ◌++◌, IfOk, OnOk, OnErr};
ghost use Rattle.hv_event.specs.Line.{event_text};

use crate::actor::push_actor;
use crate::event::Event;
use hv_answer::print_reply;
use hv_step::print_step;
use hv_text::{Bytes, push_decimal};
use std::alloc::{AllocError, Global};

#[tactic(auto, unfolding(crate::specs::Line::event_text))]
fn event_line(alloc: Global, event: &Event) -> Result<Bytes, AllocError>
    ensures { IfOk result (λ line. line ≡ event_text event.now) }
{
    let mut line = Bytes::from_vec(Vec::new(alloc));
    push_decimal(alloc, &mut line, event.stamp)?;
    line.append(b" ")?;
    push_actor(alloc, &mut line, event.actor)?;
    line.append(b" ")?;
    push_decimal(alloc, &mut line, event.index)?;
    line.append(b" ")?;
    print_step(alloc, &mut line, &event.step)?;
    line.append(b" -> ")?;
    print_reply(alloc, &mut line, &event.reply)?;
    Ok(line)
}

/// Appends an event's line, without the line's end. At `Err` nothing has changed.
pub fn print_event(alloc: Global, to: &mut Bytes, event: &Event) -> Result<(), AllocError>
    ensures ok { OnOk result (to.new ≡ to.old ++ event_text event.now) }
    ensures err { OnErr result (to.new ≡ to.old) }
{
    let line = event_line(alloc, event)?;
    to.append(line.as_slice())
}
