//! What a step shows that a session asked for.
ghost use Rattle.std.specs.Prelude.{◌≡◌, ◌+◌, ◌<◌, ◌^◌, ◌++◌, None, IfOk, OnOk};
ghost use Rattle.hv_model.specs.Session.{present};
ghost use Rattle.hv_model.specs.Terminal.{FitsPresent};
ghost use Rattle.hv_model.specs.Transcript.{changed_by};
ghost use Rattle.hv_rules.specs.Carry.{Carry};
ghost use Rattle.hv_rules.specs.Line.{why_refused};
ghost use Rattle.hv_shown.specs.Appends.{AreRegionsOf, IsStepShown};
ghost use Rattle.hv_terminals.specs.Session.{begins_at};
ghost use Rattle.hv_transcript.specs.Kept.{ShowsGoing, ShowsNext, ShowsOnce, begun_shown};
ghost use Rattle.hv_transcript.specs.Telling.{CanBeShown, refused_in, with_told};

use crate::going::show_going;
use crate::kept::Kept;
use hv_answer::Reply;
use hv_programs::Line;
use hv_region::RegionPlan;
use hv_shown::{show_begun, show_step};
use hv_step::Step;
use hv_terminals::{Begins, Plans, Terminal};
use hv_text::Bytes;
use std::alloc::{AllocError, Global};

// The next command, as it is begun.
fn show_next(to: &mut Bytes, terminal: &Terminal<'_>) -> Result<(), AllocError>
    ensures { OnOk result (to.new ≡ to.old ++ begun_shown terminal.now.terminal.session) }
{
    match terminal.next_line() {
        Some(line) => show_begun(to, line),
        None => Ok(()),
    }
}

// The regions of the guest that a step lists.
fn regions_of<'a>(plans: &'a Plans, step: &Step) -> &'a [RegionPlan]
    ensures { AreRegionsOf plans.now step.now result.now }
{
    match step {
        Step::Regions(regions) => plans.regions_of(regions.name.as_slice()),
        _ => &[],
    }
}

// The one step of a command.
fn show_once(
    alloc: Global,
    to: &mut Bytes,
    terminal: &Terminal<'_>,
    step: &Step,
    reply: &Reply,
) -> Result<Kept, AllocError>
    requires { IsStepShown step.now reply.now }
    ensures { IfOk result (ShowsOnce terminal.now.terminal.plans
        (begun_shown terminal.now.terminal.session) step.now reply.now to.old to.new) }
{
    show_next(to, terminal)?;
    show_step(alloc, to, regions_of(terminal.plans(), step), step, reply)?;
    Ok(Kept::of_none())
}

// The first step of a line, which knows no guest yet.
fn show_first(
    alloc: Global,
    to: &mut Bytes,
    known: &Kept,
    terminal: &Terminal<'_>,
    line: &Line,
    step: &Step,
    reply: &Reply,
) -> Result<Kept, AllocError>
    requires bounded { known.now.changed + 1 < 2 ^ 64 }
    requires refused { why_refused line.now.place ≡ None }
    ensures { IfOk result (ShowsGoing terminal.now.terminal.plans (with_told None line.now)
        (known.now.changed + changed_by reply.now) step.now reply.now
        (to.old ++ begun_shown terminal.now.terminal.session) to.new) }
{
    show_next(to, terminal)?;
    let first = Kept {
        changed: known.changed,
        guest: None,
        refused: None,
    };
    let left = show_going(alloc, to, terminal.plans(), line, &first, step, reply)?;
    Ok(left)
}

/// Shows a step that a terminal's session asked for, where this was known of its line, and gives what
/// is known of the line then.
pub(crate) fn show_asked(
    alloc: Global,
    to: &mut Bytes,
    known: &Kept,
    terminal: &Terminal<'_>,
    begins: &Begins,
    step: &Step,
    reply: &Reply,
) -> Result<Kept, AllocError>
    requires refused { known.now.refused ≡ refused_in terminal.now.terminal.session.line }
    requires bounded { known.now.changed + 1 < 2 ^ 64 }
    requires begins { begins.now
        ≡ begins_at terminal.now.terminal.plans terminal.now.terminal.session }
    requires next { (c : Carry) × FitsPresent terminal.now.terminal.plans
        terminal.now.terminal.session.lines
        (present terminal.now.terminal.plans terminal.now.terminal.session) step.now reply.now c }
    requires shown { CanBeShown begins.now step.now reply.now }
    ensures { IfOk result (ShowsNext terminal.now.terminal.plans terminal.now.terminal.session
        known.now step.now reply.now to.old to.new) }
{
    match begins {
        Begins::Nothing => match terminal.line() {
            Some(line) => {
                let left = show_going(alloc, to, terminal.plans(), line, known, step, reply)?;
                Ok(left)
            }
            None => unreachable!(),
        },
        Begins::Command => {
            let left = show_once(alloc, to, terminal, step, reply)?;
            Ok(left)
        }
        Begins::Line(line) => {
            let left = show_first(alloc, to, known, terminal, line, step, reply)?;
            Ok(left)
        }
        Begins::NoCommand => {
            let left = show_once(alloc, to, terminal, step, reply)?;
            Ok(left)
        }
    }
}
