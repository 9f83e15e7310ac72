//! Laws of terminals, each the contract of a function that does nothing or cites another law.
ghost use Rattle.std.specs.Prelude.{◌≡◌, ◌+◌, ◌≤◌, ℕ, All, List, Option, Some};
ghost use Rattle.hv_text.specs.declared.limits.TheConstants.{MOST_LINES};
ghost use Rattle.hv_kinds.specs.declared.generation.Generation.{Generation};
ghost use Rattle.hv_model.specs.declared.entry.Entry.{Entry};
ghost use Rattle.hv_model.specs.Legal.{terminal_at_start};
ghost use Rattle.hv_model.specs.Origin.{Origin, own_script};
ghost use Rattle.hv_model.specs.Plans.{Planned, regions_of};
ghost use Rattle.hv_model.specs.Session.{lines_run};
ghost use Rattle.hv_model.specs.Terminal.{TerminalAgrees, TerminalState, terminal_after};
ghost use Rattle.hv_programs.specs.Line.{GivesSlot, IsGuest};
ghost use Rattle.hv_programs.specs.Owed.{IsOwed};
ghost use Rattle.hv_terminals.specs.Adding.{IsStoppedSo, LineAddsItsVcpus};
ghost use Rattle.hv_terminals.specs.Plans.{AreSized, KeepRules};
ghost use Rattle.hv_terminals.specs.Ready.{IsReady};
ghost use Rattle.hv_terminals.specs.declared.due.Due.{Due};
ghost use Rattle.hv_terminals.specs.Terminal.{Brings, HasGoodRegions, IsCounted, IsDue, IsMadeSo, at_start, boot_given};

use hv_words::lines_say_what_is_told;

/// A run begins with terminals of the host tree's plans, the first of which has the boot script.
pub fn terminals_start_so()
    ensures { (O : Origin) (t : ℕ) → terminal_at_start O t
        ≡ at_start O.opening.plans (boot_given O t) (own_script O t) }
{}

/// A terminal agrees to the event of the step that was due of it, where the step shows the generation
/// that the directory gave and was made with what the terminal handed over.
pub fn terminals_agree_to_what_is_due()
    ensures { (t : TerminalState) (due : Due) (given : Option Generation) (e : Entry)
        → IsDue t (Some due) → t.session.lines ≤ MOST_LINES → e.event.index ≡ t.count + 1
        → IsMadeSo due given e.event.step e.event.reply e.carry → TerminalAgrees t e }
{}

/// A step to which a terminal agrees leaves its scripts no more lines than they may have.
pub fn terminals_open_few_lines()
    ensures { (t : TerminalState) (e : Entry) → TerminalAgrees t e
        → IsCounted e.event.step e.event.reply e.carry → t.session.lines ≤ MOST_LINES
        → t.session.lines + lines_run e.event.reply ≤ MOST_LINES }
{}

/// The steps that a terminal owes are of its guests and of the board, from the start on, whatever the
/// replies.
pub fn terminals_owe_steps_of_the_board()
    ensures start { (plans : List Planned) (boot : Option (List ℕ)) (own : List ℕ)
        → All IsOwed (at_start plans boot own).owed }
    ensures step { (t : TerminalState) (e : Entry) → TerminalAgrees t e
        → Brings e.event.step e.carry
        → ((name : List ℕ) → HasGoodRegions (regions_of t.plans name)) → All IsOwed t.owed
        → All IsOwed (terminal_after t e).owed }
{}

/// The VCPUs that a terminal's line adds are of its guest's plan, from the start on, whatever the
/// replies, where a name that has no good plan is refused a claim.
pub fn terminals_add_vcpus_of_their_plans()
    ensures start { (plans : List Planned) (boot : Option (List ℕ)) (own : List ℕ)
        → LineAddsItsVcpus (at_start plans boot own) }
    ensures step { (t : TerminalState) (e : Entry) → TerminalAgrees t e → AreSized t.plans
        → IsStoppedSo e.event.step e.event.reply e.carry → GivesSlot e.event.reply
        → IsGuest e.carry.guest → LineAddsItsVcpus t → LineAddsItsVcpus (terminal_after t e) }
{}

/// A step that is due of a terminal is ready for a board, where the terminal goes by good plans and
/// owes steps of the board, and its line adds the VCPUs of its guest's plan.
pub fn terminals_ask_for_steps_of_the_board()
    ensures { (t : TerminalState) (due : Due) → IsDue t (Some due) → KeepRules t.plans
        → All IsOwed t.owed → LineAddsItsVcpus t → IsReady t.plans due }
{
    lines_say_what_is_told();
}
