//! Laws of the definitions, each the contract of a function that does nothing.
ghost use Rattle.hv_hart_next.specs.Next.{ActorHasOneNextEvent, HartHasOneNextEvent};
ghost use Rattle.hv_hart_next.specs.Next.{HartHasANextEvent, OwingTerminalHasANextEvent};
ghost use Rattle.hv_hart_next.specs.Next.{RunningVcpusAreOfTheirGuests};
ghost use Rattle.hv_hart_next.specs.Next.{RoundsHaveOneHistory, RoundsHaveOneReport};

use hv_model::a_history_has_one_report;

/// In each state that a legal history leads to from good plans, a hart has one next event at most: its step, its reply, what it hands over, its index and its stamp.
pub fn a_hart_has_one_next_event()
    ensures { HartHasOneNextEvent }
{}

/// There any actor has one next event at most.
pub fn an_actor_has_one_next_event()
    ensures { ActorHasOneNextEvent }
{}

/// A run in rounds from good plans has one history, whatever turns harts make, and so one report.
pub fn rounds_have_one_history()
    ensures history { RoundsHaveOneHistory }
    ensures report { RoundsHaveOneReport }
{
    a_history_has_one_report();
}

/// In each such state a VCPU that runs is of the guest that has its slot.
pub fn running_vcpus_are_of_their_guests()
    ensures { RunningVcpusAreOfTheirGuests }
{}

/// And there a hart has a next event unless it is at its end.
pub fn a_hart_has_a_next_event()
    ensures { HartHasANextEvent }
{}

/// A terminal owes interrupt steps alone, and one that owes a step has a next event.
pub fn an_owing_terminal_has_a_next_event()
    ensures { OwingTerminalHasANextEvent }
{}
