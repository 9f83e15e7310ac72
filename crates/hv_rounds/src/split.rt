//! Entries parted into the logs of the terminals.
ghost use Rattle.std.specs.Prelude.{◌≡◌, ◌++◌, [], ◌∷◌, filter, OnOk};
ghost use Rattle.hv_model.specs.Report.{is_terminal};
ghost use Rattle.hv_rounds.specs.Board.{own_events};

use hv_event::{ActorId, Event};
use hv_model::Entry;
use std::alloc::{AllocError, Global};

/// The logs of the four terminals.
#[derive(Drop)]
pub struct Logs {
    pub zero: Vec<Event>,
    pub one: Vec<Event>,
    pub two: Vec<Event>,
    pub three: Vec<Event>,
}

/// Puts an event at the end of a log.
fn push_to(log: &mut Vec<Event>, event: Event) -> Result<(), AllocError>
    ensures { OnOk result (log.new.items ≡ log.old.items ++ event ∷ []) }
{
    log.push(event)?;
    Ok(())
}

/// Lets go of an event of no terminal.
fn let_go(_event: Event) {}

/// Puts an event at the end of its terminal's log.
fn push_event(logs: &mut Logs, event: Event) -> Result<(), AllocError>
    ensures zero { OnOk result (logs.new.zero.items ≡ logs.old.zero.items ++ filter (λ e. is_terminal 0 e.actor) (event ∷ [])) }
    ensures one { OnOk result (logs.new.one.items ≡ logs.old.one.items ++ filter (λ e. is_terminal 1 e.actor) (event ∷ [])) }
    ensures two { OnOk result (logs.new.two.items ≡ logs.old.two.items ++ filter (λ e. is_terminal 2 e.actor) (event ∷ [])) }
    ensures three { OnOk result (logs.new.three.items ≡ logs.old.three.items ++ filter (λ e. is_terminal 3 e.actor) (event ∷ [])) }
{
    match event.actor {
        ActorId::Terminal(0) => push_to(&mut logs.zero, event),
        ActorId::Terminal(1) => push_to(&mut logs.one, event),
        ActorId::Terminal(2) => push_to(&mut logs.two, event),
        ActorId::Terminal(3) => push_to(&mut logs.three, event),
        ActorId::Terminal(_) => {
            let_go(event);
            Ok(())
        }
        ActorId::Hart(_) => {
            let_go(event);
            Ok(())
        }
    }
}

/// Puts the events of entries at the ends of the logs.
pub fn push_entries(logs: &mut Logs, entries: Vec<Entry>) -> Result<(), AllocError>
    ensures zero { OnOk result (logs.new.zero.items ≡ logs.old.zero.items ++ own_events 0 entries.items) }
    ensures one { OnOk result (logs.new.one.items ≡ logs.old.one.items ++ own_events 1 entries.items) }
    ensures two { OnOk result (logs.new.two.items ≡ logs.old.two.items ++ own_events 2 entries.items) }
    ensures three { OnOk result (logs.new.three.items ≡ logs.old.three.items ++ own_events 3 entries.items) }
{
    for entry in entries {
        let Entry { event, carry: _ } = entry;
        push_event(logs, event)?;
    }
    Ok(())
}

/// No events.
pub fn no_logs(alloc: Global) -> Logs
    ensures zero { result.zero.items ≡ [] }
    ensures one { result.one.items ≡ [] }
    ensures two { result.two.items ≡ [] }
    ensures three { result.three.items ≡ [] }
{
    Logs {
        zero: Vec::new(alloc),
        one: Vec::new(alloc),
        two: Vec::new(alloc),
        three: Vec::new(alloc),
    }
}
