//! What a line asks for, and its steps.
ghost use Rattle.std.specs.Prelude.{◌≡◌, ◌+◌, ◌<◌, ◌≤◌, ◌++◌, length, map, slice_index_or, IfOk, OnOk};
ghost use Rattle.hv_rules.specs.Line as line;
ghost use Rattle.hv_rules.specs.Line.{is_alias, is_device, steps_of};
ghost use Rattle.hv_programs.specs.Ask.{ask_of, asked_of, changes_of, chosen, each_of, end_of, life_of, numbered, one_of, row_of, rows_of, steps_in};

use hv_kinds::Stage;
use hv_region::{Form, RegionPlan};
use hv_text::{Bytes, GUEST_REGIONS, VCPUS};
use std::alloc::{AllocError, Global};

/// What is asked of each VCPU of a guest.
#[derive(Clone, Copy, Debug, PartialEq, Eq)]
pub enum Change {
    Kick,
    Resume,
    Pause,
    Halt,
    Reset,
}

/// What a line of several steps asks for.
#[derive(Debug, Drop)]
pub enum Asked {
    /// So many rests.
    Rests(u16),
    /// A look at each VCPU of the board.
    Looks,
    /// The life of a guest.
    Create(Bytes),
    /// The end of a guest.
    Destroy(Bytes),
    /// A change of each VCPU of a guest.
    EachVcpu(Change, Bytes),
}

/// One step of a line, with the number of its region's row or of its VCPU where it has one.
#[derive(Clone, Copy, Debug)]
pub enum Ask {
    Rest,
    Look(u8),
    Claim,
    Turn(Stage, Option<Stage>),
    Add(u8),
    Drop(Stage, u8),
    AddVcpu(u8),
    DropVcpu(u8),
    Change(Change, u8),
    ResetDevice(u8),
}

/// Steps that differ by a number alone.
#[derive(Clone, Copy, Debug)]
pub(crate) enum Numbered {
    Look,
    Add,
    Drop(Stage),
    AddVcpu,
    DropVcpu,
    Change(Change),
    ResetDevice,
}

/// Some regions of a plan.
#[derive(Clone, Copy, Debug)]
pub(crate) enum Choice {
    /// Those that are built at creation.
    Built,
    /// The aliases among those that are built at creation.
    BuiltAliases,
    /// Those that the guest owns.
    Owned,
    Devices,
}

/// The steps of a line; rests are kept as their number.
#[derive(Debug, Drop)]
pub(crate) enum Steps {
    Rests(u16),
    Listed(Vec<Ask>),
}

// The step with this number.
fn ask_for(kind: Numbered, number: u8) -> Ask
    ensures { ask_of result ≡ numbered kind number }
{
    match kind {
        Numbered::Look => Ask::Look(number),
        Numbered::Add => Ask::Add(number),
        Numbered::Drop(stage) => Ask::Drop(stage, number),
        Numbered::AddVcpu => Ask::AddVcpu(number),
        Numbered::DropVcpu => Ask::DropVcpu(number),
        Numbered::Change(change) => Ask::Change(change, number),
        Numbered::ResetDevice => Ask::ResetDevice(number),
    }
}

fn is_alias(form: &Form) -> bool
    ensures { result ≡ is_alias form.now }
{
    match form {
        Form::Alias(_) => true,
        _ => false,
    }
}

fn is_device(form: &Form) -> bool
    ensures { result ≡ is_device form.now }
{
    match form {
        Form::Device(_) => true,
        _ => false,
    }
}

fn is_chosen(choice: Choice, region: &RegionPlan) -> bool
    ensures { result ≡ chosen choice region.now }
{
    match choice {
        Choice::Built => !region.detached && !is_alias(&region.form),
        Choice::BuiltAliases => !region.detached && is_alias(&region.form),
        Choice::Owned => !is_alias(&region.form),
        Choice::Devices => is_device(&region.form),
    }
}

// Appends one step.
#[tactic(auto, using(std::proofs::lemmas::Grind::common_steps))]
fn push_one(steps: &mut Vec<Ask>, ask: Ask) -> Result<(), AllocError>
    ensures { OnOk result (map ask_of steps.new.items
        ≡ map ask_of steps.old.items ++ one_of (ask_of ask)) }
{
    steps.push(ask)?;
    Ok(())
}

// Appends a step for each number below a count.
#[tactic(auto, using(crate::proofs::Each::each_more, std::proofs::lemmas::Grind::common_steps))]
fn push_each(steps: &mut Vec<Ask>, kind: Numbered, count: u8) -> Result<(), AllocError>
    ensures { OnOk result (map ask_of steps.new.items
        ≡ map ask_of steps.old.items ++ each_of kind count) }
{
    for number in 0..count {
        push_one(steps, ask_for(kind, number))?;
    }
    Ok(())
}

// Appends a step for a region in a row, if it is chosen.
#[tactic(auto, using(std::proofs::lemmas::Grind::common_steps))]
fn push_row(
    steps: &mut Vec<Ask>,
    kind: Numbered,
    choice: Choice,
    row: u8,
    region: &RegionPlan,
) -> Result<(), AllocError>
    ensures { OnOk result (map ask_of steps.new.items
        ≡ map ask_of steps.old.items ++ row_of kind choice row region.now) }
{
    if is_chosen(choice, region) {
        push_one(steps, ask_for(kind, row))?;
    }
    Ok(())
}

// Appends a step for each region that is chosen, by row from a number on.
#[tactic(auto, using(std::proofs::lemmas::Grind::common_steps))]
fn push_rows(
    steps: &mut Vec<Ask>,
    kind: Numbered,
    choice: Choice,
    row: u8,
    regions: &[RegionPlan],
) -> Result<(), AllocError>
    requires { row + length regions.now ≤ GUEST_REGIONS }
    ensures { OnOk result (map ask_of steps.new.items
        ≡ map ask_of steps.old.items ++ rows_of kind choice row regions.now) }
{
    match regions {
        [] => Ok(()),
        [region, others @ ..] => {
            push_row(steps, kind, choice, row, region)?;
            push_rows(steps, kind, choice, row + 1, others)?;
            Ok(())
        }
    }
}

// The steps of the life of a guest.
fn push_life(steps: &mut Vec<Ask>, vcpus: u8, regions: &[RegionPlan]) -> Result<(), AllocError>
    requires { length regions.now ≤ GUEST_REGIONS }
    ensures { OnOk result (map ask_of steps.new.items
        ≡ map ask_of steps.old.items ++ life_of vcpus regions.now) }
{
    push_one(steps, Ask::Claim)?;
    push_rows(steps, Numbered::Add, Choice::Built, 0, regions)?;
    push_rows(steps, Numbered::Add, Choice::BuiltAliases, 0, regions)?;
    push_each(steps, Numbered::AddVcpu, vcpus)?;
    push_one(steps, Ask::Turn(Stage::Making, Some(Stage::Made)))?;
    Ok(())
}

// The steps of the end of a guest.
fn push_end(steps: &mut Vec<Ask>, vcpus: u8, regions: &[RegionPlan]) -> Result<(), AllocError>
    requires { length regions.now ≤ GUEST_REGIONS }
    ensures { OnOk result (map ask_of steps.new.items
        ≡ map ask_of steps.old.items ++ end_of vcpus regions.now) }
{
    push_one(steps, Ask::Turn(Stage::Made, Some(Stage::Ending)))?;
    push_each(steps, Numbered::DropVcpu, vcpus)?;
    push_rows(
        steps,
        Numbered::Drop(Stage::Ending),
        Choice::Owned,
        0,
        regions,
    )?;
    push_one(steps, Ask::Turn(Stage::Ending, None))?;
    Ok(())
}

// The steps of a change of each VCPU, which resets the devices too where it is a reset.
fn push_changes(
    steps: &mut Vec<Ask>,
    change: Change,
    vcpus: u8,
    regions: &[RegionPlan],
) -> Result<(), AllocError>
    requires { length regions.now ≤ GUEST_REGIONS }
    ensures { OnOk result (map ask_of steps.new.items
        ≡ map ask_of steps.old.items ++ changes_of change vcpus regions.now) }
{
    push_each(steps, Numbered::Change(change), vcpus)?;
    match change {
        Change::Reset => {
            push_rows(steps, Numbered::ResetDevice, Choice::Devices, 0, regions)?;
            Ok(())
        }
        _ => Ok(()),
    }
}

impl Steps {
    /// The steps of a line, for a guest with so many VCPUs and these regions.
    pub(crate) fn of(
        alloc: Global,
        asked: &Asked,
        vcpus: u8,
        regions: &[RegionPlan],
    ) -> Result<Steps, AllocError>
        requires { length regions.now ≤ GUEST_REGIONS }
        ensures { IfOk result (λ steps.
            steps_in steps ≡ steps_of (asked_of asked.now) vcpus regions.now) }
    {
        let mut steps = Vec::new(alloc);
        match asked {
            Asked::Rests(count) => return Ok(Steps::Rests(*count)),
            Asked::Looks => push_each(&mut steps, Numbered::Look, VCPUS as u8)?,
            Asked::Create(_) => push_life(&mut steps, vcpus, regions)?,
            Asked::Destroy(_) => push_end(&mut steps, vcpus, regions)?,
            Asked::EachVcpu(change, _) => push_changes(&mut steps, *change, vcpus, regions)?,
        }
        Ok(Steps::Listed(steps))
    }

    /// How many steps there are.
    pub(crate) fn len(&self) -> usize
        ensures { result ≡ length (steps_in self.now) }
    {
        match self {
            Steps::Rests(count) => *count as usize,
            Steps::Listed(steps) => steps.len(),
        }
    }

    /// The step at an index.
    pub(crate) fn at(&self, index: usize) -> Ask
        requires { index < length (steps_in self.now) }
        ensures { (other : line.Ask)
            → ask_of result ≡ slice_index_or (steps_in self.now) index other }
    {
        match self {
            Steps::Rests(_) => Ask::Rest,
            Steps::Listed(steps) => steps[index],
        }
    }
}
