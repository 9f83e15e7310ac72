//! Laws of runs, each the contract of a function that does nothing.
ghost use Rattle.std.specs.Prelude.{◌≡◌, false, None, Some};
ghost use Rattle.hv_kinds.specs.declared.state.State.TheVariants as state;
ghost use Rattle.hv_laws.specs.Example as example;
ghost use Rattle.hv_laws.specs.Laws.{current_of, RunningIsCurrent, RunsApart, StepsAreOfTheCurrent};
ghost use Rattle.hv_laws.specs.Laws.{ReadyIsQueued, EntriesAreOfReady, ReadyIsInOneQueue};
ghost use Rattle.hv_laws.specs.Laws.{DispatchIsNotRefused, HartsAreWithinTheirSlices};
ghost use Rattle.std.specs.Prelude.{List, ℕ, ◌<◌};
ghost use Rattle.hv_event.specs.declared.event.ActorId.TheVariants as actor;
ghost use Rattle.hv_event.specs.declared.event.CellId.TheVariants as component;
ghost use Rattle.hv_event.specs.declared.event.Event.{Event};
ghost use Rattle.hv_machine.specs.Machine.{State};
ghost use Rattle.hv_model.specs.Cell.{Component, Actor};
ghost use Rattle.hv_model.specs.Legal.{Leads};
ghost use Rattle.hv_model.specs.Origin.{Origin};
ghost use Rattle.hv_model.specs.Rules.{machine};
ghost use Rattle.hv_laws.specs.Laws.{StandsWhereReady};
ghost use Rattle.hv_laws.specs.Legal.{board_of};
ghost use Rattle.hv_laws.specs.Run.{IsStart, IsRun, board_at};

/// A run of a board with two harts, and what two of its boards hold.
pub fn example_runs()
    ensures start { IsStart 2 example.start }
    ensures run { IsRun 2 example.start example.left (board_at 2 example.start example.left) }
    ensures runs { ((board_at 2 example.start example.running).vcpus 0).state ≡ state.Running 0 }
    ensures current { current_of ((board_at 2 example.start example.running).harts 0) ≡ Some 0 }
    ensures paused { ((board_at 2 example.start example.left).vcpus 0).state
        ≡ state.Paused false }
    ensures left { current_of ((board_at 2 example.start example.left).harts 0) ≡ None }
{}

/// A VCPU that runs on a hart is the one that the hart runs.
pub fn running_vcpus_are_current()
    ensures { RunningIsCurrent }
{}

/// A VCPU runs on one hart, and a hart runs one VCPU.
pub fn a_vcpu_runs_on_one_hart()
    ensures { RunsApart }
{}

/// A step that runs a VCPU, or preempts it, is made by the hart on which it runs.
pub fn steps_are_of_the_current_vcpu()
    ensures { StepsAreOfTheCurrent }
{}

/// A VCPU stands in the queues of all harts together once where it is ready, and else nowhere, and
/// with its own priority.
pub fn ready_vcpus_are_queued()
    ensures once { ReadyIsQueued }
    ensures entries { EntriesAreOfReady }
    ensures one_queue { ReadyIsInOneQueue }
{}

/// A dispatch of a queue's head is not refused.
pub fn no_dispatch_is_refused()
    ensures { DispatchIsNotRefused }
{}

/// A hart has a pending access only with a VCPU, which used no more turns than its slice has.
pub fn harts_are_within_their_slices()
    ensures { HartsAreWithinTheirSlices }
{}

/// In each state that a legal history leads to, a VCPU that runs on a hart is that hart's current
/// one, and a VCPU stands in the queues once where it is ready, and else nowhere.
pub fn legal_histories_keep_the_laws()
    ensures running { (O : Origin) (H : List Event) (s : State (machine O)) → Leads O H s → (v h : ℕ)
        → (s (Component (component.Vcpu v))).value.state ≡ state.Running h
        → current_of (s (Actor (actor.Hart h))).value.program ≡ Some v }
    ensures ready { (O : Origin) (H : List Event) (s : State (machine O)) → Leads O H s
        → 0 < O.opening.harts → (v : ℕ) → StandsWhereReady O.opening.harts (board_of O s) v }
{}
