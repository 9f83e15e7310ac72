//! What a terminal's scripts have come to.
ghost use Rattle.std.specs.Prelude.{◌≡◌, ◌≤◌, ◌+◌, ◌↔◌, ℕ, None, Some, List, IfOk, IfSome, IsTrue, OnOk, length};
ghost use Rattle.std.specs.Option.{option_copied};
ghost use Rattle.hv_text.specs.Lines.{script_lines};
ghost use Rattle.hv_text.specs.declared.limits.TheConstants.{MOST_LINES};
ghost use Rattle.hv_step.specs.declared.step.Step.{Step};
ghost use Rattle.hv_rules.specs.Carry.{Carry};
ghost use Rattle.hv_rules.specs.Line.{line_after};
ghost use Rattle.hv_model.specs.Plans.{Planned};
ghost use Rattle.hv_model.specs.Session.{Begun, HasBooted, HasEnded, begun, goes, kept, lines_run, made_at, makes, present, session_after, tells};
ghost use Rattle.hv_words.specs.declared.refusal.WordsRefusal.{WordsRefusal};
ghost use Rattle.hv_programs.specs.Line.{GivesSlot, IsGuest, with_guest};
ghost use Rattle.hv_terminals.specs.Scripts.{begun_line, script_run};
ghost use Rattle.hv_terminals.specs.Session.{HasSessionRoom, IsDuePresent, begins_at, gone_on, lines_opened, opened_at_start, session_at_start, with_task};
ghost use Rattle.hv_terminals.specs.Task.{HasSteps};

use crate::due::{Begins, Due, room_for};
use crate::plans::Plans;
use crate::script::OpenScript;
use crate::scripts::Scripts;
use crate::stack::Stack;
use crate::task::{due_of_command, due_of_line};
use hv_answer::Reply;
use hv_programs::Line;
use hv_text::Bytes;
use hv_words::count_lines;
use std::alloc::{AllocError, Global};
use std::marker::Model;

/// What a terminal's scripts have come to: the line that is begun, the open scripts, and how many
/// lines all scripts have that were opened. Contracts see it with room for a script.
#[derive(Drop)]
pub struct Session {
    line: Option<Line>,
    scripts: Scripts,
    lines: u64,
}

impl Model for Session {
    ghost use Rattle.hv_terminals.specs.Session.{IsSession, SessionKept};

    ghost Value = { SessionKept };

    ghost view = { λ s. record {
      session = record {
        line = s.line;
        boot = s.scripts.boot.scripts;
        own = s.scripts.own.scripts;
        lines = s.lines;
      };
      boot_room = s.scripts.boot.room;
      own_room = s.scripts.own.room;
    } };

    ghost invariant = { λ s. IsSession s.line s.lines };
}

// How many lines a script has that is run.
fn lines_run(reply: &Reply) -> u64
    ensures { result ≡ lines_run reply.now }
{
    match reply {
        Reply::Run(Ok(script)) => count_lines(script.as_slice()) as u64,
        _ => 0,
    }
}

// How many lines a script has that is open at the start, if it is there.
fn lines_opened(script: &Option<Bytes>) -> u64
    ensures { result ≡ lines_opened script.now }
{
    match script {
        Some(script) => count_lines(script.as_slice()) as u64,
        None => 0,
    }
}

// The scripts that are open behind a script that may be there.
fn open_at_start(alloc: Global, script: Option<Bytes>) -> Result<Stack, AllocError>
    ensures { IfOk result (λ stack. stack.scripts ≡ opened_at_start script) }
{
    let mut stack = Stack::new(alloc);
    if let Some(script) = script {
        stack.make_room()?;
        stack.open(OpenScript::new(script));
    }
    Ok(stack)
}

// What is left of a line, once its next step is made.
#[tactic(auto, using(crate::proofs::Sessions::kept_with, crate::proofs::Sessions::kept_without))]
fn left_after(line: Line, reply: &Reply, guest: Option<(u8, u64)>) -> Option<Line>
    requires guest { IsGuest guest }
    requires slot { GivesSlot reply.now }
    ensures kept { result ≡ kept (line_after line reply.now (with_guest guest)) }
    ensures steps { IfSome result HasSteps }
{
    let mut line = line;
    line.took(reply, guest);
    match line.next_ask() {
        Some(_) => Some(line),
        None => None,
    }
}

impl Session {
    /// A session at the start, with a boot script or none, and with its own script.
    pub fn new(alloc: Global, boot: Option<Bytes>, own: Bytes) -> Result<Session, AllocError>
        requires { lines_opened boot + length (script_lines own) ≤ MOST_LINES }
        ensures { IfOk result (λ s. s.session ≡ session_at_start boot own) }
    {
        let lines = lines_opened(&boot) + count_lines(own.as_slice()) as u64;
        let boot = open_at_start(alloc, boot)?;
        let own = open_at_start(alloc, Some(own))?;
        Ok(Session {
            line: None,
            scripts: Scripts::new(boot, own),
            lines,
        })
    }

    /// The line that is begun and has steps left, if there is one.
    pub fn line(&self) -> Option<&Line>
        ensures { option_copied result ≡ self.now.session.line }
    {
        self.line.as_ref()
    }

    /// The text of the next command, if one is left.
    pub fn next_line(&self) -> Option<&[u8]>
        ensures { option_copied result ≡ begun_line (begun self.now.session) }
    {
        self.scripts.line()
    }

    /// How many lines all scripts have that were opened.
    pub fn lines(&self) -> u64
        ensures lines { result ≡ self.now.session.lines }
        ensures few { result ≤ MOST_LINES }
    {
        self.lines
    }

    /// Makes room for a script that it opens. At `Err` it is as it was.
    pub fn make_room(&mut self) -> Result<(), AllocError>
        ensures room { OnOk result (HasSessionRoom self.new) }
        ensures session { self.new.session ≡ self.old.session }
    {
        self.scripts.make_room()
    }

    /// Whether its line is done and no command of the boot script is left.
    pub fn has_booted(&self) -> bool
        ensures { IsTrue result ↔ HasBooted self.now.session }
    {
        self.line.is_none() && self.scripts.has_booted()
    }

    /// Whether its line is done and no command is left.
    pub fn has_ended(&self) -> bool
        ensures { IsTrue result ↔ HasEnded self.now.session }
    {
        self.line.is_none() && self.scripts.has_booted() && self.scripts.has_ended()
    }

    // What is due of its next command, if one is left.
    fn due_next<'p>(&self, alloc: Global, plans: &'p Plans) -> Result<Option<Due<'p>>, AllocError>
        requires { self.now.session.line ≡ None }
        ensures due { IfOk result (IsDuePresent plans.now self.now.session.lines
            (present plans.now self.now.session)) }
        ensures begins { IfOk result (λ due. IfSome due (λ due.
            due.begins ≡ begins_at plans.now self.now.session)) }
    {
        let Some(line) = self.scripts.line() else {
            return Ok(None);
        };
        let room = room_for(self.scripts.depth(), self.lines);
        Ok(Some(due_of_command(alloc, plans, room, line)?))
    }

    /// What is due: the next step of the line that is begun, or else that of the next command, or
    /// None at its end.
    pub fn due<'p>(&self, alloc: Global, plans: &'p Plans) -> Result<Option<Due<'p>>, AllocError>
        ensures due { IfOk result (IsDuePresent plans.now self.now.session.lines
            (present plans.now self.now.session)) }
        ensures begins { IfOk result (λ due. IfSome due (λ due.
            due.begins ≡ begins_at plans.now self.now.session)) }
    {
        match &self.line {
            Some(line) => Ok(Some(due_of_line(alloc, plans, line)?)),
            None => self.due_next(alloc, plans),
        }
    }

    // Counts the lines of a script that is run.
    fn count(&mut self, reply: &Reply)
        requires { self.old.session.lines + lines_run reply.now ≤ MOST_LINES }
        ensures session { self.new.session
            ≡ record self.old.session {
              lines = self.old.session.lines + lines_run reply.now;
            } }
        ensures boot { self.new.boot_room ≡ self.old.boot_room }
        ensures own { self.new.own_room ≡ self.old.own_room }
    {
        self.lines += lines_run(reply);
    }

    // Begins the next command, if one is left.
    fn begin(&mut self)
        ensures scripts { (b : Begun) → begun self.old.session ≡ Some b → self.new.session
            ≡ record self.old.session { boot = b.boot; own = b.own } }
        ensures lines { self.new.session.lines ≡ self.old.session.lines }
        ensures boot { self.old.boot_room ≤ self.new.boot_room }
        ensures own { self.old.own_room ≤ self.new.own_room }
    {
        let _begun = self.scripts.skip();
    }

    // Makes a step of the line that is begun, if one is.
    fn go_on(&mut self, reply: &Reply, guest: Option<(u8, u64)>)
        requires guest { IsGuest guest }
        requires slot { GivesSlot reply.now }
        requires lines { self.old.session.lines + lines_run reply.now ≤ MOST_LINES }
        ensures { self.new.session
            ≡ gone_on self.old.session.line self.old.session reply.now (with_guest guest) }
    {
        if let Some(line) = self.line.take() {
            self.line = left_after(line, reply, guest);
            self.count(reply);
        }
    }

    // Begins a command and makes its step, which may open a script.
    fn run(&mut self, reply: &Reply, script: Option<OpenScript>)
        requires script { script ≡ script_run reply.now }
        requires room { HasSessionRoom self.old }
        requires lines { self.old.session.lines + lines_run reply.now ≤ MOST_LINES }
        ensures { (b : Begun) (asked : Step) (c : Carry) → self.old.session.line ≡ None
            → begun self.old.session ≡ Some b → self.new.session
            ≡ made_at (Some (with_task (makes asked) b)) self.old.session reply.now c }
    {
        self.begin();
        if let Some(script) = script {
            self.scripts.open(script);
        }
        self.count(reply);
    }

    // Begins a command and makes the first step of its line.
    fn go(&mut self, line: Line, reply: &Reply, guest: Option<(u8, u64)>)
        requires guest { IsGuest guest }
        requires slot { GivesSlot reply.now }
        requires lines { self.old.session.lines + lines_run reply.now ≤ MOST_LINES }
        ensures { (b : Begun) → begun self.old.session ≡ Some b → self.new.session
            ≡ made_at (Some (with_task (goes line) b)) self.old.session reply.now
            (with_guest guest) }
    {
        self.begin();
        self.line = left_after(line, reply, guest);
        self.count(reply);
    }

    // Goes past a line of a script that is no command.
    fn pass(&mut self, reply: &Reply)
        requires lines { self.old.session.lines + lines_run reply.now ≤ MOST_LINES }
        ensures { (b : Begun) (line : List ℕ) (why : WordsRefusal) (c : Carry)
            → self.old.session.line ≡ None → begun self.old.session ≡ Some b → self.new.session
            ≡ made_at (Some (with_task (tells line why) b)) self.old.session reply.now c }
    {
        self.begin();
        self.count(reply);
    }

    /// Takes the reply to the step that was due, with slot and birth of the guest that are handed
    /// over, what is begun with the step, and the script that the reply opens.
    pub fn took(
        &mut self,
        reply: &Reply,
        guest: Option<(u8, u64)>,
        begins: Begins,
        script: Option<OpenScript>,
    )
        requires guest { IsGuest guest }
        requires slot { GivesSlot reply.now }
        requires script { script ≡ script_run reply.now }
        requires room { HasSessionRoom self.old }
        requires lines { self.old.session.lines + lines_run reply.now ≤ MOST_LINES }
        ensures { (plans : List Planned) (c : Carry) → begins ≡ begins_at plans self.old.session
            → c.guest ≡ guest
            → self.new.session ≡ session_after plans self.old.session reply.now c }
    {
        match begins {
            Begins::Nothing => self.go_on(reply, guest),
            Begins::Command => self.run(reply, script),
            Begins::Line(line) => self.go(line, reply, guest),
            Begins::NoCommand => self.pass(reply),
        }
    }
}
