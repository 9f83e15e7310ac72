//! Logs with events of one stamp.
ghost use Rattle.std.specs.Prelude.{◌≡◌};

use super::*;
use hv_event::ActorId::{Hart, Terminal};
use hv_event::{ActorId, Event, Reply, Rest, Step};
use std::test::Fail;

fn event(actor: ActorId, stamp: u64) -> Event
    ensures actor { result.actor ≡ actor }
    ensures stamp { result.stamp ≡ stamp }
{
    Event {
        actor,
        index: 1,
        stamp,
        step: Step::Rest(Rest),
        reply: Reply::Rest,
    }
}

#[test]
fn puts_harts_before_terminals_and_each_kind_by_number(rt: HostRuntime) -> Result<(), Fail> {
    let alloc = rt.alloc();
    let later_hart = vec![in alloc; event(Hart(1), 2), event(Hart(1), 5)]?;
    let terminal = vec![in alloc; event(Terminal(0), 1), event(Terminal(0), 2)]?;
    let hart = vec![in alloc; event(Hart(0), 2), event(Hart(0), 3)]?;
    let logs = vec![in alloc; later_hart, terminal, Vec::new(alloc), hart]?;
    let all = merge(alloc, logs)?;
    let wanted = [
        (Terminal(0), 1),
        (Hart(0), 2),
        (Hart(1), 2),
        (Terminal(0), 2),
        (Hart(0), 3),
        (Hart(1), 5),
    ];
    assert_eq!(rt; all.len(), wanted.len());
    for (event, (actor, stamp)) in all.iter().zip(wanted) {
        assert!(rt; event.actor == actor && event.stamp == stamp);
    }
    let none = merge(alloc, Vec::new(alloc))?;
    assert!(rt; none.is_empty());
    Ok(())
}
