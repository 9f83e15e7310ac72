//! A terminal's program.
ghost use Rattle.std.specs.Prelude.{◌≡◌, ◌+◌, ◌<◌, ◌≤◌, ◌^◌, ◌↔◌, ◌++◌, [], None, IfOk, IfSome, IsTrue, OnOk, length};
ghost use Rattle.std.specs.Option.{option_copied};
ghost use Rattle.hv_text.specs.Lines.{script_lines};
ghost use Rattle.hv_text.specs.declared.limits.TheConstants.{GUEST_REGIONS, MOST_LINES};
ghost use Rattle.hv_handed.specs.Told.{IsTold};
ghost use Rattle.hv_rules.specs.Carry.{Carry};
ghost use Rattle.hv_model.specs.Session.{begun, lines_run};
ghost use Rattle.hv_model.specs.Terminal.{IsAtBootEnd, IsAtEnd, owed_after, terminal_with};
ghost use Rattle.hv_programs.specs.Line.{GivesSlot, IsGuest};
ghost use Rattle.hv_programs.specs.declared.owed.TheConstants.{MOST_OWED};
ghost use Rattle.hv_terminals.specs.Scripts.{begun_line, script_run};
ghost use Rattle.hv_terminals.specs.Session.{lines_opened};
ghost use Rattle.hv_terminals.specs.Terminal.{HasRoom, IsDue, IsInSlot, at_start, begins_with, made_of, with_region};

use crate::due::{Begins, Due};
use crate::owes::owe;
use crate::plans::Plans;
use crate::script::OpenScript;
use crate::session::Session;
use crate::task::due_owed;
use hv_answer::Reply;
use hv_handed::Told;
use hv_programs::{Line, MOST_OWED, Owed};
use hv_step::Step;
use hv_text::{Bytes, GUEST_REGIONS};
use std::alloc::{AllocError, Global};
use std::marker::Model;

/// A terminal: how many events it made, the interrupt steps that it owes, what its scripts have come
/// to, and the plans of the host tree's guests. Contracts see its state, with room for what it may
/// owe and for a script that it opens.
#[derive(Drop)]
pub struct Terminal<'p> {
    count: u64,
    owed: Owed,
    session: Session,
    plans: &'p Plans,
}

impl<'p> Model for Terminal<'p> {
    ghost use Rattle.hv_terminals.specs.Terminal.{TerminalKept};

    ghost Value = { TerminalKept };

    ghost view = { λ t. record {
      terminal = record {
        count = t.count;
        owed = t.owed.steps;
        session = t.session.session;
        plans = t.plans.now;
      };
      owed_room = t.owed.room;
      boot_room = t.session.boot_room;
      own_room = t.session.own_room;
    } };
}

impl<'p> Terminal<'p> {
    /// A terminal at the start of a run, with a boot script or none, and with its own script.
    pub fn new(
        alloc: Global,
        plans: &'p Plans,
        boot: Option<Bytes>,
        own: Bytes,
    ) -> Result<Terminal<'p>, AllocError>
        requires { lines_opened boot + length (script_lines own) ≤ MOST_LINES }
        ensures { IfOk result (λ t. t.terminal ≡ at_start plans.now boot own) }
    {
        Ok(Terminal {
            count: 0,
            owed: Owed::new(alloc),
            session: Session::new(alloc, boot, own)?,
            plans,
        })
    }

    /// Makes room for what its next step may owe, and for a script that it may open. At `Err` it is
    /// as it was.
    pub fn make_room(&mut self) -> Result<(), AllocError>
        ensures room { OnOk result (HasRoom self.new) }
        ensures terminal { self.new.terminal ≡ self.old.terminal }
    {
        self.owed.make_room(MOST_OWED + GUEST_REGIONS)?;
        self.session.make_room()
    }

    /// The plans of the host tree's guests.
    pub fn plans(&self) -> &Plans
        ensures { result.now ≡ self.now.terminal.plans }
    {
        self.plans
    }

    /// The line that is begun and has steps left, if there is one.
    pub fn line(&self) -> Option<&Line>
        ensures { option_copied result ≡ self.now.terminal.session.line }
    {
        self.session.line()
    }

    /// The text of the next command of its scripts, if one is left.
    pub fn next_line(&self) -> Option<&[u8]>
        ensures { option_copied result ≡ begun_line (begun self.now.terminal.session) }
    {
        self.session.next_line()
    }

    /// Whether it owes no interrupt step.
    pub fn owes_nothing(&self) -> bool
        ensures { IsTrue result ↔ (self.now.terminal.owed ≡ []) }
    {
        match self.owed.next() {
            None => true,
            Some(_) => false,
        }
    }

    /// Whether it is at the end of its boot script.
    pub fn is_at_boot_end(&self) -> bool
        ensures { IsTrue result ↔ IsAtBootEnd self.now.terminal }
    {
        if self.owes_nothing() {
            return self.session.has_booted();
        }
        false
    }

    /// Whether it is at its end.
    pub fn is_at_end(&self) -> bool
        ensures { IsTrue result ↔ IsAtEnd self.now.terminal }
    {
        if self.owes_nothing() {
            return self.session.has_ended();
        }
        false
    }

    /// Its next step, as it is asked: the first that is owed, or else the session's, or None at its
    /// end.
    pub fn due(&self, alloc: Global) -> Result<Option<Due<'p>>, AllocError>
        ensures due { IfOk result (IsDue self.now.terminal) }
        ensures begins { IfOk result (λ due. IfSome due (λ due.
            due.begins ≡ begins_with self.now.terminal)) }
        ensures end { IfOk result (λ due. (due ≡ None) ↔ IsAtEnd self.now.terminal) }
        ensures few { self.now.terminal.session.lines ≤ MOST_LINES }
    {
        let _lines = self.session.lines();
        if let Some(next) = self.owed.next() {
            return Ok(Some(due_owed(next)));
        }
        let due = self.session.due(alloc, self.plans)?;
        Ok(due)
    }

    // Takes the owed step away that was made, or takes the reply to the session's.
    fn made(
        &mut self,
        reply: &Reply,
        guest: Option<(u8, u64)>,
        begins: Begins,
        script: Option<OpenScript>,
    )
        requires guest { IsGuest guest }
        requires slot { GivesSlot reply.now }
        requires script { script ≡ script_run reply.now }
        requires room { HasRoom self.old }
        requires lines { self.old.terminal.session.lines + lines_run reply.now ≤ MOST_LINES }
        requires begins { begins ≡ begins_with self.old.terminal }
        ensures made { (c : Carry) → c.guest ≡ guest
            → self.new.terminal ≡ made_of self.old.terminal reply.now c }
        ensures count { self.new.terminal.count ≡ self.old.terminal.count }
        ensures room { MOST_OWED + GUEST_REGIONS ≤ self.new.owed_room }
    {
        if self.owed.next().is_some() {
            self.owed.pop();
        } else {
            self.session.took(reply, guest, begins, script);
        }
    }

    // Owes the interrupt steps that follow from the step that it made.
    fn owe(&mut self, step: &Step, reply: &Reply, row: Option<u8>, parent: Option<(u8, u8)>)
        requires slot { IsInSlot step.now }
        requires room { MOST_OWED + GUEST_REGIONS ≤ self.old.owed_room }
        ensures { self.new.terminal
            ≡ record self.old.terminal {
              owed = self.old.terminal.owed ++ owed_after self.old.terminal.plans step.now reply.now
                  (with_region row parent);
            } }
    {
        owe(&mut self.owed, self.plans, step, reply, row, parent);
    }

    // Counts the event that it made.
    fn count(&mut self)
        requires { self.old.terminal.count + 1 < 2 ^ 64 }
        ensures { self.new.terminal
            ≡ record self.old.terminal { count = self.old.terminal.count + 1 } }
    {
        self.count += 1;
    }

    /// Takes the reply to the step that was due: with the row that it handed over, with what it
    /// learnt, what is begun with the step, and the script that the reply opens.
    pub fn took(
        &mut self,
        step: &Step,
        reply: &Reply,
        row: Option<u8>,
        told: Told,
        begins: Begins,
        script: Option<OpenScript>,
    )
        requires count { self.old.terminal.count + 1 < 2 ^ 64 }
        requires room { HasRoom self.old }
        requires begins { begins ≡ begins_with self.old.terminal }
        requires script { script ≡ script_run reply.now }
        requires lines { self.old.terminal.session.lines + lines_run reply.now ≤ MOST_LINES }
        requires of_slot { IsInSlot step.now }
        requires guest { IsGuest told.guest }
        requires slot { GivesSlot reply.now }
        ensures { (c : Carry) → c.row ≡ row → IsTold c told → self.new.terminal
            ≡ terminal_with self.old.terminal self.old.terminal.owed step.now reply.now c }
    {
        self.made(reply, told.guest, begins, script);
        self.owe(step, reply, row, told.parent);
        self.count();
    }
}
