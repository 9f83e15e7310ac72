//! A terminal's next step, as it is asked.
ghost use Rattle.std.specs.Prelude.{◌≡◌, ◌<◌, ◌≤◌};
ghost use Rattle.hv_text.specs.declared.limits.TheConstants.{GUEST_VCPUS, MOST_LINES};
ghost use Rattle.hv_programs.specs.Line.{IsGiven};
ghost use Rattle.hv_terminals.specs.Due.{guest_shown, room_for, shown_at, vcpu_shown};

use crate::plans::Unplanned;
use hv_answer::Reply;
use hv_kinds::Generation;
use hv_programs::{Line, given_vcpu};
use hv_region::{RegionPlan, VcpuPlan};
use hv_step::{ByGuest, Step};
use hv_text::{GUEST_VCPUS, MOST_LINES, OPEN_SCRIPTS};

/// What a terminal hands over for its step.
#[derive(Clone, Copy)]
pub struct Hands<'a> {
    /// Why no guest is made of a name, before the directory is asked.
    pub stopped: Option<Unplanned<'a>>,
    /// The row of a region, if the guest's plan has it.
    pub row: Option<u8>,
    /// The plan of a region, with how many VCPUs its guest has.
    pub plan: Option<(&'a RegionPlan, u8)>,
    /// Index and plan of a VCPU that is added.
    pub vcpu: Option<(u8, VcpuPlan)>,
    /// How many lines a script may have that is run now; none where too many scripts are open.
    pub room: Option<u64>,
}

/// What a terminal begins with its step.
#[derive(Drop)]
pub enum Begins {
    /// Nothing: the step is owed, or it is of the line that is begun.
    Nothing,
    /// The next command, which has this step alone.
    Command,
    /// The next command, with its line of several steps.
    Line(Line),
    /// The next line of a script, which is no command.
    NoCommand,
}

/// A terminal's next step, as it is asked; a step by guest shows no generation yet.
#[derive(Drop)]
pub struct Due<'a> {
    pub step: Step,
    /// The index in its guest of a VCPU whose change is asked by guest.
    pub index: u8,
    /// The reply, where the terminal gives it itself.
    pub reply: Option<Reply>,
    pub hands: Hands<'a>,
    pub begins: Begins,
}

/// How many lines a script may have that is run now, where so many scripts are open, and all that
/// were opened have so many lines; none where too many are open.
pub fn room_for(depth: usize, lines: u64) -> Option<u64>
    requires { lines ≤ MOST_LINES }
    ensures { result ≡ room_for depth lines }
{
    if depth >= OPEN_SCRIPTS {
        return None;
    }
    Some(MOST_LINES as u64 - lines)
}

// Shows the guest of a change of a VCPU.
fn show_guest(vcpu: &mut u8, guest: &mut Option<ByGuest>, index: u8, given: Option<Generation>)
    requires given { IsGiven given }
    requires index { index < GUEST_VCPUS }
    ensures vcpu { vcpu.new ≡ vcpu_shown index given vcpu.old guest.old }
    ensures guest { guest.new ≡ guest_shown given guest.old }
{
    if let Some(by) = guest {
        *vcpu = given_vcpu(given, index);
        by.generation = given;
    }
}

// Shows a generation in a step by guest.
fn show_in(step: &mut Step, index: u8, given: Option<Generation>)
    requires given { IsGiven given }
    requires index { index < GUEST_VCPUS }
    ensures { step.new ≡ shown_at index given step.old }
{
    match step {
        Step::Add(add) => add.generation = given,
        Step::Drop(drop) => drop.generation = given,
        Step::Regions(regions) => regions.generation = given,
        Step::Load(load) => load.generation = given,
        Step::Mem(mem) => mem.generation = given,
        Step::Devreset(reset) => reset.generation = given,
        Step::Feed(feed) => feed.generation = given,
        Step::Output(output) => output.generation = given,
        Step::Kick(kick) => show_guest(&mut kick.vcpu, &mut kick.guest, index, given),
        Step::Resume(resume) => show_guest(&mut resume.vcpu, &mut resume.guest, index, given),
        Step::Pause(pause) => show_guest(&mut pause.vcpu, &mut pause.guest, index, given),
        Step::Halt(halt) => show_guest(&mut halt.vcpu, &mut halt.guest, index, given),
        Step::Reset(reset) => show_guest(&mut reset.vcpu, &mut reset.guest, index, given),
        _ => {}
    }
}

impl<'a> Due<'a> {
    /// Shows the generation that the directory gives, in a step by guest.
    pub fn show(&mut self, given: Option<Generation>)
        requires given { IsGiven given }
        requires index { self.old.index < GUEST_VCPUS }
        ensures { self.new ≡ record self.old { step = shown_at self.old.index given self.old.step } }
    {
        show_in(&mut self.step, self.index, given);
    }
}
