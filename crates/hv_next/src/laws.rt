//! Laws of the definitions, each the contract of a function that does nothing.
ghost use Rattle.std.specs.Prelude.{◌≡◌, ℕ, Bool, List};
ghost use Rattle.hv_machine.specs.Machine.{State, MayHappen};
ghost use Rattle.hv_event.specs.declared.event.ActorId.TheVariants.{Terminal};
ghost use Rattle.hv_event.specs.declared.event.Event.{Event};
ghost use Rattle.hv_model.specs.Origin.{Origin};
ghost use Rattle.hv_model.specs.declared.entry.Entry.{Entry};
ghost use Rattle.hv_model.specs.Report.{IsReport};
ghost use Rattle.hv_model.specs.Rounds.{IsRounds};
ghost use Rattle.hv_model.specs.Rules.{machine};

use hv_model::a_history_has_one_report;

/// At each state a terminal has one next event at most: its step, its reply, what it hands over, its
/// index and its stamp.
pub fn a_terminal_has_one_next_event()
    ensures { (O : Origin) (s : State (machine O)) (t : ℕ) (e f : Entry)
        → e.event.actor ≡ Terminal t → f.event.actor ≡ Terminal t
        → MayHappen (machine O) s e → MayHappen (machine O) s f → e ≡ f }
{}

/// Where harts make no turn, a run in rounds has one history, and so one report.
pub fn a_run_in_rounds_has_one_history()
    ensures history { (O : Origin) (H K : List Event) → O.opening.turns ≡ 0
        → IsRounds O H → IsRounds O K → H ≡ K }
    ensures report { (O : Origin) (H K : List Event) (threads brief : Bool) (one other : List ℕ)
        → O.opening.turns ≡ 0 → IsRounds O H → IsRounds O K
        → IsReport O H threads brief one → IsReport O K threads brief other → one ≡ other }
{
    a_history_has_one_report();
}
