//! An actor's log beside what the actor has seen of each cell, and how logs and entries come to agree.
//!
//! Terms: entries are the events at one cell, in the cell's order; an actor has seen those that stood
//! when it last made an event there; others go on behind its back.
#![tactic(auto)]

ghost use Rattle.std.specs.Prelude.{ℕ, List, [], ◌∷◌, ◌++◌};
ghost use Rattle.hv_machine.specs.Machine.{State};
ghost use Rattle.hv_machine.specs.Merging.{Agree};
ghost use Rattle.hv_following.specs.Follows.{IsLater, Follows, IsMadeAfter, IsClosed};

use hv_machine::Ranked;

/// A log follows whatever others made later.
pub fn later<R: Ranked>()
    ensures { (first : R.machine.Cell → ℕ) (a : R.machine.Cell) (log : List R.machine.Event)
        (seen now : R.machine.Cell → List R.machine.Event)
        → Follows R.machine first a log seen
        → ((x : R.machine.Cell) → IsLater R.machine a (seen x) (now x))
        → Follows R.machine first a log now }
{}

/// A log follows with one event more.
pub fn made<R: Ranked>()
    ensures { (first : R.machine.Cell → ℕ) (a : R.machine.Cell) (log : List R.machine.Event)
        (e : R.machine.Event) (seen before after : R.machine.Cell → List R.machine.Event)
        → Follows R.machine first a log seen
        → ((x : R.machine.Cell) → IsLater R.machine a (seen x) (before x))
        → IsMadeAfter R.machine first a e before after
        → Follows R.machine first a (log ++ e ∷ []) after }
{}

/// At the end logs and entries agree.
pub fn closed<R: Ranked>()
    ensures { (s : State R.machine) (logs entries : R.machine.Cell → List R.machine.Event)
        (seen : R.machine.Cell → R.machine.Cell → List R.machine.Event)
        → IsClosed R.machine s logs entries seen → Agree R.machine s logs entries }
{}
