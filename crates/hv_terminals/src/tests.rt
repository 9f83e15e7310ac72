//! A guest's plan, a short script and a step that is due, with ample memory.
ghost use Rattle.std.specs.Prelude.{◌≡◌, ◌+◌, ◌<◌, ◌≤◌, ◌^◌, length, IfOk};
ghost use Rattle.hv_text.specs.declared.limits.TheConstants.{MOST_LINES};
ghost use Rattle.hv_terminals.specs.Terminal.{HasRoom, begins_with};

use super::*;
use hv_answer::Reply;
use hv_handed::Told;
use hv_kinds::{AddressType, Generation};
use hv_programs::Asked;
use hv_refusal::Refusal;
use hv_region::{Form, GuestPlan, RegionPlan, VcpuPlan};
use hv_step::{ByGuest, Kick, Rest, Step};
use hv_text::{Bytes, Items};
use hv_words::{Command, count_lines};
use std::alloc::{AllocError, Global};
use std::test::Fail;

const GUEST: Generation = Generation { slot: 1, birth: 7 };

fn text_of(alloc: Global, text: &[u8]) -> Result<Bytes, AllocError> {
    Ok(Bytes::from_vec(Vec::from_slice(alloc, text)?))
}

// The plan of a guest g with one VCPU and one region.
fn small_plan(alloc: Global) -> Result<GuestPlan, AllocError>
    ensures vcpus { IfOk result (λ plan. length plan.vcpus.items ≡ 1) }
    ensures regions { IfOk result (λ plan. length plan.regions.items ≡ 1) }
{
    let mut vcpus = Vec::new(alloc);
    vcpus.push(VcpuPlan {
        start: 0x8000_0000,
        priority: 1,
        slice: 4,
    })?;
    let mut regions = Vec::new(alloc);
    regions.push(RegionPlan {
        name: text_of(alloc, b"ram")?,
        kind: AddressType::Memory,
        base: 0x8000_0000,
        size: 0x1000,
        form: Form::Ram,
        detached: false,
        clock: false,
        parent: None,
    })?;
    Ok(GuestPlan {
        name: text_of(alloc, b"g")?,
        vcpus,
        regions,
    })
}

fn small_plans(alloc: Global) -> Result<Plans, AllocError> {
    let mut guests = Items::new(alloc);
    guests.push(Ok(small_plan(alloc)?))?;
    Ok(Plans::new(guests))
}

#[test]
fn finds_a_guest_by_its_name(rt: HostRuntime) -> Result<(), Fail> {
    let plans = small_plans(rt.alloc())?;
    assert!(rt; plans.planned(b"g").is_some());
    assert!(rt; plans.plan_of(b"g").is_some());
    assert!(rt; plans.plan_of(b"h").is_none());
    assert!(rt; plans.refusal_for(b"g").is_none());
    assert!(rt; plans.regions_of(b"g").len() == 1);
    assert!(rt; plans.vcpus_of(b"g").len() == 1);
    Ok(())
}

#[test]
fn finds_a_region_by_its_name(rt: HostRuntime) -> Result<(), Fail> {
    let plans = small_plans(rt.alloc())?;
    assert!(rt; plans.row_of(b"g", b"ram") == Some(0));
    assert!(rt; plans.row_of(b"g", b"rom").is_none());
    let region = plans.region_of(b"g", b"ram");
    assert!(rt; matches!(region, Some((_, 1))));
    let vcpu = plans.vcpu_given(b"g", 5);
    assert!(rt; matches!(vcpu, Some((0, VcpuPlan { priority: 1, .. }))));
    assert!(rt; index_of(6) == 1);
    Ok(())
}

#[test]
fn tells_that_a_plan_is_missing(rt: HostRuntime) -> Result<(), Fail> {
    let why = Unplanned::NoGuest.refusal()?;
    let missing = matches!(&why, Refusal::NoGuest);
    drop(why);
    assert!(rt; missing);
    Ok(())
}

#[test]
fn refuses_a_script_that_is_too_long(rt: HostRuntime) -> Result<(), Fail> {
    let script = text_of(rt.alloc(), b"one\ntwo\n")?;
    let answer = answer_run(Ok(script), Some(1));
    let too_long = matches!(&answer.reply, Err(Refusal::TooLong));
    let lines = answer.lines;
    drop(answer);
    assert!(rt; too_long);
    assert!(rt; lines == Some(2));
    assert!(rt; room_for(3, 10) == Some(9_990));
    assert!(rt; room_for(4, 10).is_none());
    Ok(())
}

#[test]
fn reads_a_script_command_by_command(rt: HostRuntime) -> Result<(), Fail> {
    let reply = Reply::Run(Ok(text_of(rt.alloc(), b"# first\nterm rest 2\n\n")?));
    let run = OpenScript::of_reply(rt.alloc(), &reply)?;
    drop(reply);
    let Some(mut script) = run else {
        return Err(Fail::from("a run opens a script"));
    };
    assert!(rt; script.line() == Some(b"term rest 2"));
    assert!(rt; script.skip());
    assert!(rt; script.line().is_none());
    assert!(rt; !script.skip());
    Ok(())
}

// To kick the second VCPU of the guest g.
fn due_kick<'a>(alloc: Global) -> Result<Due<'a>, AllocError>
    ensures { IfOk result (λ due. due.index ≡ 1) }
{
    let guest = ByGuest {
        name: text_of(alloc, b"g")?,
        generation: None,
    };
    let kick = Kick {
        vcpu: 0,
        guest: Some(guest),
    };
    Ok(Due {
        step: Step::Kick(kick),
        index: 1,
        reply: None,
        hands: Hands {
            stopped: None,
            row: None,
            plan: None,
            vcpu: None,
            room: None,
        },
        begins: Begins::Nothing,
    })
}

fn kicked(due: &Due<'_>) -> Option<u8> {
    match &due.step {
        Step::Kick(kick) => Some(kick.vcpu),
        _ => None,
    }
}

#[test]
fn shows_the_vcpu_of_a_guest(rt: HostRuntime) -> Result<(), Fail> {
    let mut due = due_kick(rt.alloc())?;
    due.show(Some(GUEST));
    let vcpu = kicked(&due);
    drop(due);
    assert!(rt; vcpu == Some(6));
    Ok(())
}

#[test]
fn asks_for_a_line_of_rests(rt: HostRuntime) -> Result<(), Fail> {
    let work = work_of(Command::TermRest(10_000));
    let rests = matches!(&work, Work::Several(Asked::Rests(10_000)));
    drop(work);
    assert!(rt; rests);
    Ok(())
}

#[test]
fn opens_a_script_where_its_command_stands(rt: HostRuntime) -> Result<(), Fail> {
    let mut scripts = Scripts::new(Stack::new(rt.alloc()), Stack::new(rt.alloc()));
    scripts.make_room()?;
    assert!(rt; scripts.has_booted());
    scripts.open(OpenScript::new(text_of(rt.alloc(), b"one\n")?));
    assert!(rt; scripts.line() == Some(b"one"));
    assert!(rt; scripts.depth() == 1);
    assert!(rt; scripts.skip());
    assert!(rt; scripts.has_ended());
    Ok(())
}

fn is_rest(due: &Due<'_>) -> bool {
    matches!(due.reply, Some(Reply::Rest))
}

fn begun_with(due: Due<'_>) -> Begins
    ensures { result ≡ due.entry.begins }
{
    due.begins
}

// Takes the reply to a rest.
fn rest(terminal: &mut Terminal<'_>, begins: Begins)
    requires count { terminal.old.terminal.count + 1 < 2 ^ 64 }
    requires room { HasRoom terminal.old }
    requires begins { begins ≡ begins_with terminal.old.terminal }
    requires few { terminal.old.terminal.session.lines ≤ MOST_LINES }
{
    let step = Step::Rest(Rest);
    terminal.took(&step, &Reply::Rest, None, Told::nothing(), begins, None);
}

#[test]
fn a_terminal_rests_and_ends(rt: HostRuntime) -> Result<(), Fail> {
    let plans = Plans::new(Items::new(rt.alloc()));
    let boot = text_of(rt.alloc(), b"term rest 1\n")?;
    let own = text_of(rt.alloc(), b"")?;
    if count_lines(boot.as_slice()) > 1 || count_lines(own.as_slice()) > 1 {
        return Err(Fail::from("each has a line at most"));
    }
    let mut terminal = Terminal::new(rt.alloc(), &plans, Some(boot), own)?;
    terminal.make_room()?;
    assert!(rt; !terminal.is_at_boot_end());
    let Some(due) = terminal.due(rt.alloc())? else {
        return Err(Fail::from("a rest is due"));
    };
    let rests = is_rest(&due);
    rest(&mut terminal, begun_with(due));
    assert!(rt; rests);
    assert!(rt; terminal.is_at_boot_end());
    assert!(rt; terminal.is_at_end());
    Ok(())
}

#[test]
fn closes_a_script_that_is_over(rt: HostRuntime) -> Result<(), Fail> {
    let mut stack = Stack::new(rt.alloc());
    assert!(rt; stack.is_empty());
    stack.make_room()?;
    stack.open(OpenScript::new(text_of(rt.alloc(), b"one\n")?));
    assert!(rt; stack.line() == Some(b"one"));
    assert!(rt; stack.depth() == 1);
    assert!(rt; stack.skip());
    assert!(rt; !stack.skip());
    Ok(())
}
