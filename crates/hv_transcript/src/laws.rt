//! Laws of transcripts, each the contract of a function that does nothing.
ghost use Rattle.std.specs.Prelude.{◌≡◌, ◌++◌, ◌∷◌, ℕ, [], None, List, Option};
ghost use Rattle.hv_event.specs.declared.event.Event.{Event};
ghost use Rattle.hv_model.specs.declared.entry.Entry.{Entry};
ghost use Rattle.hv_model.specs.Plans.{Planned};
ghost use Rattle.hv_model.specs.Session.{Session};
ghost use Rattle.hv_model.specs.Terminal.{TerminalState, terminal_after};
ghost use Rattle.hv_model.specs.Transcript.{Telling};
ghost use Rattle.hv_terminals.specs.Terminal.{at_start};
ghost use Rattle.hv_transcript.specs.Telling.{IsNew, KeepsUp, TellsOn, TranscriptKept};
ghost use Rattle.hv_transcript.specs.Told.{IsTranscriptOf};

/// A new transcript is that of no events, and keeps up with a terminal at the start.
pub fn transcripts_begin_so()
    ensures shown { (plans : List Planned) (x : TranscriptKept) (s : Session) → IsNew x
        → s.line ≡ None
        → IsTranscriptOf plans (record { session = s; changed = 0 }) [] x s }
    ensures keeps_up { (plans : List Planned) (boot : Option (List ℕ)) (own : List ℕ)
        (x : TranscriptKept) → IsNew x → KeepsUp x (at_start plans boot own) }
{}

/// What an event of a terminal adds to its transcript makes it that of one event more.
pub fn transcripts_grow()
    ensures { (start : Telling) (events : List Event) (t : TerminalState)
        (old new : TranscriptKept) (made : Entry)
        → IsTranscriptOf t.plans start events old t.session → TellsOn t old new made.event
        → IsTranscriptOf t.plans start (events ++ made.event ∷ []) new
        (terminal_after t made).session }
{}
