//! A terminal's next step, with what it shows.
ghost use Rattle.std.specs.Prelude.{◌≡◌, ◌++◌, IfOk, OnOk, false};
ghost use Rattle.hv_model.specs.Session.{begun, has_ended};
ghost use Rattle.hv_model.specs.Transcript.{begin_shown};
ghost use Rattle.hv_rounds.specs.Cells.{session_of};
ghost use Rattle.hv_rounds.specs.Step.{IsStep, AppendsEvent, SpentBy, KeepsFiles};

use crate::files::FileCell;
use crate::show::{push_begun, push_reply};
use crate::step::{rest_on, step_line};
use crate::stop::Stop;
use crate::terminal::Terminal;
use hv_event::Reply;
use hv_model::Entry;
use std::alloc::{AllocError, Global};

impl Terminal {
    ghost use Rattle.hv_rounds.specs.Cells.{SameButShown};
    ghost use Rattle.hv_rounds.specs.Step.{IsShowable, AppendsEnd};
    ghost use Rattle.hv_model.specs.Transcript.{line};
    ghost use Rattle.std.specs.Prelude.{codes};

    /// Shows a line that is begun.
    pub fn show_begun(&mut self, text: &[u8]) -> Result<(), AllocError>
        ensures same { SameButShown self.old self.new }
        ensures shown { OnOk result (self.new.shown ≡ self.old.shown ++ line (codes "> " ++ text.now)) }
    {
        push_begun(&mut self.shown, text)
    }

    /// Shows what came of a line, where that is done.
    pub fn show_end(&mut self, alloc: Global, reply: &Reply) -> Result<(), AllocError>
        requires { IsShowable reply.now }
        ensures same { SameButShown self.old self.new }
        ensures shown { OnOk result (
            AppendsEnd self.old.rests reply.now self.old.shown self.new.shown) }
    {
        if self.rests > 0 {
            return Ok(());
        }
        push_reply(alloc, &mut self.shown, reply)
    }
}

/// The first step of the next line, which is shown.
fn step_begun(alloc: Global, files: &mut FileCell, terminal: &mut Terminal) -> Result<Entry, Stop>
    requires line_done { terminal.old.rests ≡ 0 }
    requires left { has_ended (session_of terminal.old) ≡ false }
    ensures ok { IfOk result (λ e. IsStep files.old files.new terminal.old terminal.new e) }
    ensures shown { OnOk result (terminal.new.shown
        ≡ terminal.old.shown ++ begin_shown (session_of terminal.old).line (begun (session_of terminal.old))) }
    ensures spent { SpentBy result terminal.old.stamp files.old.stamp }
    ensures kept { KeepsFiles result files.old files.new }
{
    let line = terminal.begin(alloc)?;
    terminal.show_begun(line.as_slice())?;
    step_line(alloc, files, terminal, line)
}

/// The next step, whose line is shown where it is begun.
fn make_step(alloc: Global, files: &mut FileCell, terminal: &mut Terminal) -> Result<Entry, Stop>
    requires { has_ended (session_of terminal.old) ≡ false }
    ensures ok { IfOk result (λ e. IsStep files.old files.new terminal.old terminal.new e) }
    ensures shown { OnOk result (terminal.new.shown
        ≡ terminal.old.shown ++ begin_shown (session_of terminal.old).line (begun (session_of terminal.old))) }
    ensures spent { SpentBy result terminal.old.stamp files.old.stamp }
    ensures kept { KeepsFiles result files.old files.new }
{
    if terminal.rests > 0 {
        return rest_on(files, terminal);
    }
    step_begun(alloc, files, terminal)
}

/// The next step of a terminal that has not ended, and what it shows.
pub fn take_step(
    alloc: Global,
    files: &mut FileCell,
    terminal: &mut Terminal,
) -> Result<Entry, Stop>
    requires { has_ended (session_of terminal.old) ≡ false }
    ensures ok { IfOk result (λ e. IsStep files.old files.new terminal.old terminal.new e) }
    ensures shown { IfOk result (λ e.
        AppendsEvent terminal.old e.event terminal.old.shown terminal.new.shown) }
    ensures spent { SpentBy result terminal.old.stamp files.old.stamp }
    ensures kept { KeepsFiles result files.old files.new }
{
    let entry = make_step(alloc, files, terminal)?;
    terminal.show_end(alloc, &entry.event.reply)?;
    Ok(entry)
}
