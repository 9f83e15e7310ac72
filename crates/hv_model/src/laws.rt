//! Laws of the definitions, each the contract of a function that does nothing.
ghost use Rattle.std.specs.Prelude.{[], ◌∷◌, ◌≡◌, ℕ, Bool, List, false, codes, None, Ok, Err};
ghost use Rattle.hv_answer.specs.declared.reply.Reply.TheVariants as reply;
ghost use Rattle.hv_event.specs.declared.event.Event.{Event};
ghost use Rattle.hv_refusal.specs.declared.refusal.Refusal.TheVariants as refusal;
ghost use Rattle.hv_rules.specs.Line.{create};
ghost use Rattle.hv_model.specs.Entry.{nothing};
ghost use Rattle.hv_model.specs.Plans.{Planned};
ghost use Rattle.hv_model.specs.Terminal.{TerminalAgrees, owed_after, terminal_after};
ghost use Rattle.hv_model.specs.Transcript.{going_shown};
ghost use Rattle.hv_model.specs.GuestExample as guest;
ghost use Rattle.hv_model.specs.Origin.{Origin};
ghost use Rattle.hv_model.specs.Legal.{Legal, Complete};
ghost use Rattle.hv_model.specs.Report.{IsReport};
ghost use Rattle.hv_model.specs.Board.{ClosedBoardIsLegal};
ghost use Rattle.hv_model.specs.Rounds.{RoundsAreLegal};
ghost use Rattle.hv_model.specs.Example as example;

/// The run of a boot script that shows one file: its history, wrong ones, and its report.
pub fn hello_example()
    ensures legal { Legal example.origin example.history }
    ensures complete { Complete example.origin example.history }
    ensures other_byte { Legal example.origin (example.other_byte ∷ []) → ⊥ }
    ensures other_stamp { Legal example.origin (example.other_stamp ∷ []) → ⊥ }
    ensures other_index { Legal example.origin (example.other_index ∷ []) → ⊥ }
    ensures report { IsReport example.origin example.history false false example.text }
{}

/// What the actors and the components of a closed board hold, merged, is a legal history.
pub fn closed_board_is_legal()
    ensures { ClosedBoardIsLegal }
{}

/// A history made in rounds is legal.
pub fn rounds_are_legal()
    ensures { RoundsAreLegal }
{}

/// A history has one report, since a device tree source stands for one tree.
pub fn a_history_has_one_report()
    ensures { (O : Origin) (H : List Event) (threads brief : Bool) (one other : List ℕ)
        → IsReport O H threads brief one → IsReport O H threads brief other → one ≡ other }
{}

/// The next steps of terminals that are at lines on a guest, and what is owed.
pub fn lines_on_guests_go_on()
    ensures claim { (plans : List Planned) → guest.HasGuests plans → TerminalAgrees (guest.new plans)
        (guest.event 1 (guest.name (codes "g0")) guest.claimed nothing) }
    ensures no_guest { (plans : List Planned) → guest.HasGuests plans
        → TerminalAgrees (guest.at_line plans (create (codes "g9")))
        (guest.event 1 (guest.name (codes "g9")) (reply.Name (Err refusal.NoGuest)) guest.no_guest) }
    ensures faulty { (plans : List Planned) → guest.HasGuests plans
        → TerminalAgrees (guest.at_line plans (create (codes "g1"))) (guest.event 1
        (guest.name (codes "g1")) (reply.Name (Err guest.why_faulty)) guest.faulty) }
    ensures not_faulty { (plans : List Planned) → guest.HasGuests plans
        → TerminalAgrees (guest.at_line plans (create (codes "g1")))
        (guest.event 1 (guest.name (codes "g1")) guest.claimed nothing) → ⊥ }
    ensures region { (plans : List Planned) → guest.HasGuests plans
        → TerminalAgrees (guest.claiming plans)
        (guest.event 2 guest.add guest.added (guest.of_row 0 guest.uart)) }
    ensures other_row { (plans : List Planned) → guest.HasGuests plans
        → TerminalAgrees (guest.claiming plans)
        (guest.event 2 guest.add guest.added (guest.of_row 1 guest.uart)) → ⊥ }
    ensures vcpu { (plans : List Planned) → guest.HasGuests plans
        → TerminalAgrees (guest.adding plans)
        (guest.event 3 guest.add_vcpu guest.done_vcpu guest.with_vcpu) }
    ensures no_plan { (plans : List Planned) → guest.HasGuests plans
        → TerminalAgrees (guest.adding plans)
        (guest.event 3 guest.add_vcpu guest.done_vcpu nothing) → ⊥ }
    ensures turned { (plans : List Planned) → TerminalAgrees (guest.whole plans)
        (guest.event 4 guest.turn guest.made guest.with_guest) }
    ensures done { (plans : List Planned) → (terminal_after (guest.whole plans)
        (guest.event 4 guest.turn guest.made guest.with_guest)).session.line ≡ None }
    ensures kick { (plans : List Planned) → TerminalAgrees (guest.kicking plans)
        (guest.event 1 guest.kick_step guest.kicked guest.with_priority) }
    ensures other_vcpu { (plans : List Planned) → TerminalAgrees (guest.kicking plans)
        (guest.event 1 guest.other_vcpu guest.kicked guest.with_priority) → ⊥ }
    ensures owed { (plans : List Planned) → TerminalAgrees (guest.owing plans)
        (guest.event 1 guest.pin (reply.Pin None) nothing) }
    ensures owed_first { (plans : List Planned) → TerminalAgrees (guest.owing plans)
        (guest.event 1 guest.kick_step guest.kicked guest.with_priority) → ⊥ }
    ensures paid { (plans : List Planned) → (terminal_after (guest.owing plans)
        (guest.event 1 guest.pin (reply.Pin None) nothing)).owed ≡ [] }
    ensures children { (plans : List Planned) → guest.HasGuests plans
        → owed_after plans guest.add_plic guest.pin_changed (guest.of_row 1 guest.plic)
        ≡ guest.pin ∷ guest.sample ∷ [] }
    ensures not_made { (plans : List Planned)
        → owed_after plans guest.add guest.pin_changed (guest.of_row 0 guest.uart) ≡ [] }
    ensures slot { (plans : List Planned)
        → going_shown plans (guest.last plans) 0 guest.turn guest.made
        ≡ example.lines (codes "slot 2" ∷ codes "< ok" ∷ []) }
{}
