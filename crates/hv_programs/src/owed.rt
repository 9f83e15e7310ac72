//! The interrupt steps that an actor owes, first in, first out.
ghost use Rattle.std.specs.Prelude.{◌≡◌, ◌+◌, ◌≤◌, ◌<◌, ◌^◌, ◌++◌, [], length, map, slice_get, OnOk};
ghost use Rattle.std.specs.Option.{option_map};
ghost use Rattle.std.specs.VecDeque.{deque_len, deque_capacity};
ghost use Rattle.hv_rules.specs.Hart.{without_first};
ghost use Rattle.hv_rules.specs.Owed.{vcpu_of, samples, has_changed, pin_steps, sample_to, child_samples, owed_for};
ghost use Rattle.hv_programs.specs.Owed.{step_of, pin_at};

use hv_kinds::{Generation, SignalChanges};
use hv_region::RegionPlan;
use hv_step::{Pin, Sample, Step};
use hv_text::{GUEST_REGIONS, GUEST_VCPUS, SLOTS};
use std::alloc::{AllocError, Global};
use std::collections::VecDeque;
use std::marker::Model;

/// The most steps that one change of a region's signals owes: a sample, and a pin for each VCPU.
pub const MOST_OWED: usize = 1 + GUEST_VCPUS;

/// A step that is owed.
#[derive(Clone, Copy, Debug)]
pub enum OwedStep {
    Sample(Sample),
    Pin(Pin),
}

impl OwedStep {
    /// The step itself.
    pub fn step(self) -> Step
        ensures { result ≡ step_of self }
    {
        match self {
            OwedStep::Sample(sample) => Step::Sample(sample),
            OwedStep::Pin(pin) => Step::Pin(pin),
        }
    }
}

/// The steps that an actor owes, which contracts see as a list with room for more.
#[derive(Debug, Drop)]
pub struct Owed {
    steps: VecDeque<OwedStep>,
}

impl Model for Owed {
    ghost use Rattle.std.specs.Prelude.{◌-◌, map};
    ghost use Rattle.std.specs.VecDeque.{deque_len, deque_capacity};
    ghost use Rattle.hv_programs.specs.Owed.{OwedSteps, step_of};

    ghost Value = { OwedSteps };

    ghost view = { λ owed. record {
      steps = map step_of owed.steps.items;
      room = deque_capacity owed.steps - deque_len owed.steps;
    } };
}

impl Owed {
    /// Nothing is owed.
    pub fn new(alloc: Global) -> Owed
        ensures { result.steps ≡ [] }
    {
        Owed {
            steps: VecDeque::new(alloc),
        }
    }

    /// Makes room for so many more steps. At `Err` what is owed stands, and no room is lost.
    pub fn make_room(&mut self, more: usize) -> Result<(), AllocError>
        ensures room { OnOk result (more ≤ self.new.room) }
        ensures steps { self.new.steps ≡ self.old.steps }
        ensures kept { self.old.room ≤ self.new.room }
    {
        self.steps.reserve(more)
    }

    /// The step that is due, if one is owed.
    pub fn next(&self) -> Option<OwedStep>
        ensures { option_map step_of result ≡ slice_get self.now.steps 0 }
    {
        self.steps.front().copied()
    }

    /// Takes the step away that was due.
    pub fn pop(&mut self)
        ensures steps { self.new.steps ≡ without_first self.old.steps }
        ensures room { self.old.room ≤ self.new.room }
    {
        let _made = self.steps.pop_front();
    }

    /// Owes what follows from a change of a region's signals: first the sample, then the pins.
    pub fn owe(
        &mut self,
        generation: Generation,
        row: u8,
        parent: Option<(u8, u8)>,
        changes: SignalChanges,
    )
        requires slot { generation.slot < SLOTS }
        requires room { MOST_OWED ≤ self.old.room }
        ensures steps { self.new.steps ≡ self.old.steps ++ owed_for generation row parent changes }
        ensures room { self.old.room ≤ self.new.room + MOST_OWED }
    {
        push_sample(&mut self.steps, generation, row, parent, changes.line);
        push_pins(&mut self.steps, generation, row, changes.pins);
    }

    /// Owes the samples of the regions whose interrupts a new device takes.
    pub fn owe_children(&mut self, generation: Generation, new: u8, regions: &[RegionPlan])
        requires rows { length regions.now ≤ GUEST_REGIONS }
        requires room { length regions.now ≤ self.old.room }
        ensures steps { self.new.steps
            ≡ self.old.steps ++ child_samples generation new 0 regions.now }
        ensures room { self.old.room ≤ self.new.room + length regions.now }
    {
        push_children(&mut self.steps, generation, new, 0, regions);
    }
}

// Pushes a region's sample, if it has a parent and its line changed.
#[tactic(auto, using(std::proofs::lemmas::Grind::common_steps))]
fn push_sample(
    steps: &mut VecDeque<OwedStep>,
    generation: Generation,
    row: u8,
    parent: Option<(u8, u8)>,
    changed: bool,
)
    requires { deque_len steps.old < deque_capacity steps.old }
    ensures steps { map step_of steps.new.items
        ≡ map step_of steps.old.items ++ samples generation row parent changed }
    ensures length { deque_len steps.new ≤ deque_len steps.old + 1 }
    ensures capacity { deque_capacity steps.new ≡ deque_capacity steps.old }
{
    let Some((parent, source)) = parent else {
        return;
    };
    if changed {
        steps.push_back_reserved(OwedStep::Sample(Sample {
            row,
            parent,
            source,
            generation,
        }));
    }
}

/// The number on the board of a guest's VCPU.
pub(crate) fn vcpu_of(slot: u8, index: u8) -> u8
    requires slot { slot < SLOTS }
    requires index { index < GUEST_VCPUS }
    ensures { result ≡ vcpu_of slot index }
{
    1 + GUEST_VCPUS as u8 * slot + index
}

// Whether the pins of a guest's VCPU changed.
fn has_changed(pins: u8, index: u8) -> bool
    requires { index < GUEST_VCPUS }
    ensures { result ≡ has_changed pins index }
{
    (pins >> index) % 2 == 1
}

// Pushes a step for a VCPU whose pins changed.
fn push_pin(steps: &mut VecDeque<OwedStep>, generation: Generation, row: u8, pins: u8, index: u8)
    requires slot { generation.slot < SLOTS }
    requires index { index < GUEST_VCPUS }
    requires room { deque_len steps.old < deque_capacity steps.old }
    ensures steps { map step_of steps.new.items
        ≡ map step_of steps.old.items ++ pin_at generation row pins index }
    ensures length { deque_len steps.new ≤ deque_len steps.old + 1 }
    ensures capacity { deque_capacity steps.new ≡ deque_capacity steps.old }
{
    if has_changed(pins, index) {
        steps.push_back_reserved(OwedStep::Pin(Pin {
            row,
            vcpu: vcpu_of(generation.slot, index),
            generation,
        }));
    }
}

// Pushes a step for each VCPU whose pins changed.
#[tactic(auto, using(crate::proofs::Pins::pins_more))]
fn push_pins(steps: &mut VecDeque<OwedStep>, generation: Generation, row: u8, pins: u8)
    requires slot { generation.slot < SLOTS }
    requires room { deque_len steps.old + GUEST_VCPUS ≤ deque_capacity steps.old }
    ensures steps { map step_of steps.new.items
        ≡ map step_of steps.old.items ++ pin_steps generation row pins }
    ensures length { deque_len steps.new ≤ deque_len steps.old + GUEST_VCPUS }
    ensures capacity { deque_capacity steps.new ≡ deque_capacity steps.old }
{
    for index in 0..GUEST_VCPUS as u8 {
        push_pin(steps, generation, row, pins, index);
    }
}

// Pushes the sample of a region whose parent is new.
fn push_child(
    steps: &mut VecDeque<OwedStep>,
    generation: Generation,
    row: u8,
    new: u8,
    parent: Option<(u8, u8)>,
)
    requires { deque_len steps.old < deque_capacity steps.old }
    ensures steps { map step_of steps.new.items
        ≡ map step_of steps.old.items ++ sample_to generation row new parent }
    ensures length { deque_len steps.new ≤ deque_len steps.old + 1 }
    ensures capacity { deque_capacity steps.new ≡ deque_capacity steps.old }
{
    if let Some(source) = parent {
        push_sample(steps, generation, row, parent, source.0 == new);
    }
}

// Pushes the samples of regions, by row from a number on, whose parent is new.
fn push_children(
    steps: &mut VecDeque<OwedStep>,
    generation: Generation,
    new: u8,
    from: u8,
    regions: &[RegionPlan],
)
    requires rows { from + length regions.now ≤ GUEST_REGIONS }
    requires room { deque_len steps.old + length regions.now ≤ deque_capacity steps.old }
    ensures steps { map step_of steps.new.items
        ≡ map step_of steps.old.items ++ child_samples generation new from regions.now }
    ensures length { deque_len steps.new ≤ deque_len steps.old + length regions.now }
    ensures capacity { deque_capacity steps.new ≡ deque_capacity steps.old }
{
    match regions {
        [] => {}
        [region, others @ ..] => {
            push_child(steps, generation, from, new, region.parent);
            push_children(steps, generation, new, from + 1, others);
        }
    }
}
