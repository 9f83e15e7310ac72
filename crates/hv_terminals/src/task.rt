//! What is due of a task: the step of a line that is begun, or that of a command that is read.
ghost use Rattle.std.specs.Prelude.{◌≡◌, ◌<◌, ℕ, [], None, Some, Option, List, IfOk, IfSome};
ghost use Rattle.std.specs.Option.{option_copied};
ghost use Rattle.hv_text.specs.declared.limits.TheConstants.{GUEST_VCPUS};
ghost use Rattle.hv_kinds.specs.declared.generation.Generation.{Generation};
ghost use Rattle.hv_words.specs.Said.{said};
ghost use Rattle.hv_words.specs.declared.refusal.WordsRefusal.{WordsRefusal};
ghost use Rattle.hv_rules.specs.Line.{next_step};
ghost use Rattle.hv_model.specs.Plans.{Planned, planned, refusal_for, region_of, row_of};
ghost use Rattle.hv_model.specs.Session.{goes, makes, task_for, task_of, tells};
ghost use Rattle.hv_model.specs.Terminal.{refusal_of};
ghost use Rattle.hv_model.specs.Work.{line_of, plan_for, several};
ghost use Rattle.hv_programs.specs.Ask.{ask_of, asked_of};
ghost use Rattle.hv_programs.specs.Line.{IsAsk, IsPlanned};
ghost use Rattle.hv_programs.specs.Owed.{step_of as owed_step};
ghost use Rattle.hv_terminals.specs.Due.{handing, handing_for, no_handing, own_reply, shown_at};
ghost use Rattle.hv_terminals.specs.Plans.{HasVcpu};
ghost use Rattle.hv_terminals.specs.Task.{HasSteps, IsDueOf, begins_of, index_in};
ghost use Rattle.hv_terminals.specs.Terminal.{IsDueOwed};
ghost use Rattle.hv_terminals.specs.Work.{IsOnce, IsSeveral, IsWork, work_in};

use crate::due::{Begins, Due, Hands};
use crate::plans::Plans;
use crate::work::{Work, work_of};
use hv_answer::Reply;
use hv_programs::{Ask, Asked, Line, OwedStep};
use hv_refusal::Refusal;
use hv_region::GuestPlan;
use hv_step::{Bad, Step};
use hv_text::Bytes;
use hv_words::{WordsRefusal, lines_say_what_is_told, read_command};
use std::alloc::{AllocError, Global};

fn no_hands<'a>() -> Hands<'a>
    ensures { handing result ≡ no_handing }
{
    Hands {
        stopped: None,
        row: None,
        plan: None,
        vcpu: None,
        room: None,
    }
}

// Hands over the row of a region.
fn hand_row<'a>(plans: &Plans, guest: &Bytes, region: &Bytes) -> Hands<'a>
    ensures { handing result
        ≡ record no_handing { row = row_of plans.now guest.now region.now } }
{
    let row = plans.row_of(guest.as_slice(), region.as_slice());
    Hands { row, ..no_hands() }
}

// Hands over the row and the plan of a region that is added.
fn hand_region<'a>(plans: &'a Plans, guest: &Bytes, region: &Bytes) -> Hands<'a>
    ensures { handing result
        ≡ record no_handing {
          row = row_of plans.now guest.now region.now;
          plan = region_of plans.now guest.now region.now;
        } }
{
    let row = plans.row_of(guest.as_slice(), region.as_slice());
    let plan = plans.region_of(guest.as_slice(), region.as_slice());
    Hands {
        row,
        plan,
        ..no_hands()
    }
}

// Hands over why no guest is made of a name, if none is.
fn hand_stop<'a>(plans: &'a Plans, name: &Bytes) -> Hands<'a>
    ensures { handing result
        ≡ record no_handing { stopped = refusal_for (planned plans.now name.now) } }
{
    let stopped = plans.refusal_for(name.as_slice());
    Hands {
        stopped,
        ..no_hands()
    }
}

// What is handed over for a step, of a line on a guest, where a script may have so many lines.
fn hands_for<'a>(plans: &'a Plans, guest: &[u8], room: Option<u64>, step: &Step) -> Hands<'a>
    ensures { handing result ≡ handing_for plans.now guest.now room step.now }
{
    match step {
        Step::Run(_) => Hands { room, ..no_hands() },
        Step::Name(name) => hand_stop(plans, &name.name),
        Step::Add(add) => hand_region(plans, &add.name, &add.region),
        Step::Drop(drop) => hand_row(plans, &drop.name, &drop.region),
        Step::Devreset(reset) => hand_row(plans, &reset.name, &reset.region),
        Step::Feed(feed) => hand_row(plans, &feed.name, &feed.region),
        Step::Output(output) => hand_row(plans, &output.name, &output.region),
        Step::Vadd(vadd) => Hands {
            vcpu: plans.vcpu_given(guest, vadd.vcpu),
            ..no_hands()
        },
        _ => no_hands(),
    }
}

// The reply that a terminal gives itself.
fn own_reply(step: &Step) -> Option<Reply>
    ensures { result ≡ own_reply step.now }
{
    match step {
        Step::Rest(_) => Some(Reply::Rest),
        _ => None,
    }
}

// A step that is due.
fn due_for<'a>(hands: Hands<'a>, step: Step, index: u8, begins: Begins) -> Due<'a>
    ensures { result
        ≡ record {
          step = step;
          index = index;
          reply = own_reply step;
          hands = hands.entry;
          begins = begins;
        } }
{
    let reply = own_reply(&step);
    Due {
        step,
        index,
        reply,
        hands,
        begins,
    }
}

// The index in its guest of a VCPU whose change is asked by guest.
fn index_in(ask: Ask) -> u8
    requires { IsAsk (ask_of ask) }
    ensures index { result ≡ index_in (ask_of ask) }
    ensures few { result < GUEST_VCPUS }
{
    match ask {
        Ask::Change(_, index) => index,
        _ => 0,
    }
}

// The next step of a line, with the index of its VCPU.
#[tactic(auto, using(crate::proofs::Tasks::line_shown))]
fn step_of_line(alloc: Global, line: &Line) -> Result<(Step, u8), AllocError>
    requires { HasSteps line.now }
    ensures shown { IfOk result (λ due. (given : Option Generation)
        → next_step line.now given ≡ Some (shown_at due.1 given due.0)) }
    ensures asked { IfOk result (λ due. next_step line.now None ≡ Some due.0) }
    ensures index { IfOk result (λ due. due.1 < GUEST_VCPUS) }
{
    let Some(ask) = line.next_ask() else {
        unreachable!();
    };
    let Some(step) = line.next_step(alloc, None)? else {
        unreachable!();
    };
    Ok((step, index_in(ask)))
}

/// What is due of a line that is begun.
pub(crate) fn due_of_line<'a>(
    alloc: Global,
    plans: &'a Plans,
    line: &Line,
) -> Result<Due<'a>, AllocError>
    requires { HasSteps line.now }
    ensures due { IfOk result (λ due. (room : Option ℕ)
        → IsDueOf plans.now room (goes line.now) due) }
    ensures begins { IfOk result (λ due. due.begins ≡ Begins.Nothing) }
{
    let (step, index) = step_of_line(alloc, line)?;
    let hands = hands_for(plans, line.guest_name(), None, &step);
    Ok(due_for(hands, step, index, Begins::Nothing))
}

/// What is due where a step is owed.
pub(crate) fn due_owed<'a>(next: OwedStep) -> Due<'a>
    ensures due { IsDueOwed (owed_step next) result }
    ensures begins { result.begins ≡ Begins.Nothing }
{
    Due {
        step: next.step(),
        index: 0,
        reply: None,
        hands: no_hands(),
        begins: Begins::Nothing,
    }
}

// What is due of a line that is begun with its first step.
fn due_of_first<'a>(alloc: Global, plans: &'a Plans, line: Line) -> Result<Due<'a>, AllocError>
    requires { HasSteps line }
    ensures due { IfOk result (λ due. (room : Option ℕ) → IsDueOf plans.now room (goes line) due) }
    ensures begins { IfOk result (λ due. due.begins ≡ Begins.Line line) }
{
    let (step, index) = step_of_line(alloc, &line)?;
    let hands = hands_for(plans, line.guest_name(), None, &step);
    Ok(due_for(hands, step, index, Begins::Line(line)))
}

// The plan of the guest that a line is about.
fn plan_for<'a>(plans: &'a Plans, asked: &Asked) -> Option<&'a GuestPlan>
    ensures plan { option_copied result ≡ plan_for plans.now (asked_of asked.now) }
    ensures sized { IsPlanned (option_copied result) }
    ensures vcpus { IfSome (option_copied result) HasVcpu }
{
    match asked {
        Asked::Create(name) => plans.plan_of(name.as_slice()),
        Asked::Destroy(name) => plans.plan_of(name.as_slice()),
        Asked::EachVcpu(_, name) => plans.plan_of(name.as_slice()),
        _ => None,
    }
}

// Begins a line of several steps.
#[tactic(auto, using(crate::proofs::Tasks::begun_has_steps))]
fn begin(alloc: Global, plans: &Plans, asked: Asked) -> Result<Line, AllocError>
    requires { IsSeveral (asked_of asked) }
    ensures line { IfOk result (λ line. line ≡ line_of plans.now (asked_of asked)) }
    ensures steps { IfOk result HasSteps }
{
    let plan = plan_for(plans, &asked);
    Line::begin(alloc, asked, plan)
}

// What is due of a command that has one step.
#[tactic(auto, using(crate::proofs::Tasks::once_shown))]
fn due_once<'a>(plans: &'a Plans, room: Option<u64>, step: Step) -> Due<'a>
    requires { IsOnce step }
    ensures due { IsDueOf plans.now room (makes step) result }
    ensures begins { result.begins ≡ Begins.Command }
{
    let hands = hands_for(plans, &[], room, &step);
    due_for(hands, step, 0, Begins::Command)
}

// What is due of a command that was read.
fn due_of_work<'a>(
    alloc: Global,
    plans: &'a Plans,
    room: Option<u64>,
    work: Work,
) -> Result<Due<'a>, AllocError>
    requires { IsWork (work_in work) }
    ensures due { IfOk result (IsDueOf plans.now room (task_for plans.now (work_in work))) }
    ensures begins { IfOk result (λ due.
        due.begins ≡ begins_of (task_for plans.now (work_in work))) }
{
    match work {
        Work::Once(step) => Ok(due_once(plans, room, step)),
        Work::Several(asked) => {
            let line = begin(alloc, plans, asked)?;
            let due = due_of_first(alloc, plans, line)?;
            Ok(due)
        }
    }
}

// What is due of a line of a script that is no command.
fn due_told<'a>(alloc: Global, line: &[u8], why: Refusal) -> Result<Due<'a>, AllocError>
    ensures due { IfOk result (λ due. (plans : List Planned) (room : Option ℕ) (told : WordsRefusal)
        → refusal_of told ≡ why → IsDueOf plans room (tells line.now told) due) }
    ensures begins { IfOk result (λ due. due.begins ≡ Begins.NoCommand) }
{
    let line = Bytes::from_vec(Vec::from_slice(alloc, line)?);
    Ok(Due {
        step: Step::Bad(Bad { line }),
        index: 0,
        reply: Some(Reply::Bad(why)),
        hands: no_hands(),
        begins: Begins::NoCommand,
    })
}

/// What is due of a line of a script, by what it is read as.
#[tactic(auto, using(crate::proofs::Tasks::read_is))]
pub(crate) fn due_of_command<'a>(
    alloc: Global,
    plans: &'a Plans,
    room: Option<u64>,
    line: &[u8],
) -> Result<Due<'a>, AllocError>
    ensures due { IfOk result
        (IsDueOf plans.now room (task_of plans.now line.now (said line.now))) }
    ensures begins { IfOk result (λ due.
        due.begins ≡ begins_of (task_of plans.now line.now (said line.now))) }
{
    lines_say_what_is_told();
    match read_command(alloc, line) {
        Ok(command) => due_of_work(alloc, plans, room, work_of(command)),
        Err(WordsRefusal::NoCommand) => {
            let due = due_told(alloc, line, Refusal::NoCommand)?;
            Ok(due)
        }
        Err(WordsRefusal::BadWords(number)) => {
            let due = due_told(alloc, line, Refusal::BadWords(number as u64))?;
            Ok(due)
        }
        Err(WordsRefusal::Memory(error)) => Err(error),
    }
}
