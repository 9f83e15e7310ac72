//! What a terminal owes after its steps.
ghost use Rattle.std.specs.Prelude.{◌≡◌, ◌+◌, ◌<◌, ◌≤◌, ◌++◌, length, slice_get};
ghost use Rattle.std.specs.Option.{option_copied};
ghost use Rattle.hv_text.specs.declared.limits.TheConstants.{GUEST_REGIONS, SLOTS};
ghost use Rattle.hv_step.specs.declared.step.Step.TheVariants as step;
ghost use Rattle.hv_rules.specs.Line.{has_device};
ghost use Rattle.hv_model.specs.Plans.{region_at, regions_of};
ghost use Rattle.hv_model.specs.Terminal.{children_owe, owed_after, row_owes};
ghost use Rattle.hv_programs.specs.Line.{IsGiven};
ghost use Rattle.hv_programs.specs.declared.owed.TheConstants.{MOST_OWED};
ghost use Rattle.hv_terminals.specs.Terminal.{IsInSlot, with_region};

use crate::plans::Plans;
use hv_answer::Reply;
use hv_kinds::{Generation, SignalChanges, Stage};
use hv_programs::Owed;
use hv_region::{Form, RegionPlan};
use hv_step::{Add, Devreset, Feed, Sample, Step};
use hv_text::Bytes;

// Owes what follows from a change of the signals of a region in a row.
fn owe_row(
    owed: &mut Owed,
    guest: Option<Generation>,
    row: Option<u8>,
    parent: Option<(u8, u8)>,
    changes: SignalChanges,
)
    requires guest { IsGiven guest }
    requires room { MOST_OWED ≤ owed.old.room }
    ensures steps { owed.new.steps ≡ owed.old.steps ++ row_owes guest row parent changes }
    ensures room { owed.old.room ≤ owed.new.room + MOST_OWED }
{
    let Some(guest) = guest else {
        return;
    };
    let Some(row) = row else {
        return;
    };
    owed.owe(guest, row, parent, changes);
}

fn has_device(region: &RegionPlan) -> bool
    ensures { result ≡ has_device region.now }
{
    match &region.form {
        Form::Device(_) => true,
        _ => false,
    }
}

// Owes the samples of the regions whose interrupts a new region takes, if it is a device.
fn owe_region(
    owed: &mut Owed,
    guest: Option<Generation>,
    row: Option<u8>,
    region: Option<&RegionPlan>,
    regions: &[RegionPlan],
)
    requires rows { length regions.now ≤ GUEST_REGIONS }
    requires room { GUEST_REGIONS ≤ owed.old.room }
    ensures { owed.new.steps
        ≡ owed.old.steps ++ children_owe guest row (option_copied region.entry) regions.now }
{
    let Some(guest) = guest else {
        return;
    };
    let Some(row) = row else {
        return;
    };
    let Some(region) = region else {
        return;
    };
    if has_device(region) {
        owed.owe_children(guest, row, regions);
    }
}

fn region_in(regions: &[RegionPlan], row: u8) -> Option<&RegionPlan>
    ensures { option_copied result ≡ slice_get regions.now row }
{
    regions.get(row as usize)
}

// The plan of a guest's region in a row.
fn region_at<'p>(plans: &'p Plans, guest: &Bytes, row: Option<u8>) -> Option<&'p RegionPlan>
    ensures { option_copied result ≡ region_at plans.now guest.now row }
{
    let row = row?;
    region_in(plans.regions_of(guest.as_slice()), row)
}

fn owe_children(
    owed: &mut Owed,
    plans: &Plans,
    name: &Bytes,
    guest: Option<Generation>,
    row: Option<u8>,
)
    requires { GUEST_REGIONS ≤ owed.old.room }
    ensures { owed.new.steps ≡ owed.old.steps ++ children_owe guest row
        (region_at plans.now name.now row) (regions_of plans.now name.now) }
{
    let region = region_at(plans, name, row);
    owe_region(owed, guest, row, region, plans.regions_of(name.as_slice()));
}

// Owes what follows from an addition to a guest that is made.
fn owe_added(
    owed: &mut Owed,
    plans: &Plans,
    add: &Add,
    reply: &Reply,
    row: Option<u8>,
    parent: Option<(u8, u8)>,
)
    requires guest { IsGiven add.now.generation }
    requires room { MOST_OWED + GUEST_REGIONS ≤ owed.old.room }
    ensures { owed.new.steps ≡ owed.old.steps ++ owed_after plans.now (step.Add add.now) reply.now
        (with_region row parent) }
{
    if let Reply::Add(Ok(changes)) = reply {
        if let Stage::Made = add.stage {
            owe_row(owed, add.generation, row, parent, *changes);
            owe_children(owed, plans, &add.name, add.generation, row);
        }
    }
}

// Owes what follows from a removal from a guest that is made.
fn owe_dropped(
    owed: &mut Owed,
    plans: &Plans,
    drop: &hv_step::Drop,
    reply: &Reply,
    row: Option<u8>,
    parent: Option<(u8, u8)>,
)
    requires guest { IsGiven drop.now.generation }
    requires room { MOST_OWED ≤ owed.old.room }
    ensures { owed.new.steps ≡ owed.old.steps ++ owed_after plans.now (step.Drop drop.now) reply.now
        (with_region row parent) }
{
    let _ = plans;
    if let Reply::Drop(Ok(changes)) = reply {
        if let Stage::Made = drop.stage {
            owe_row(owed, drop.generation, row, parent, *changes);
        }
    }
}

// Owes what follows from the reset of a device.
fn owe_reset(
    owed: &mut Owed,
    plans: &Plans,
    reset: &Devreset,
    reply: &Reply,
    row: Option<u8>,
    parent: Option<(u8, u8)>,
)
    requires guest { IsGiven reset.now.generation }
    requires room { MOST_OWED ≤ owed.old.room }
    ensures { owed.new.steps ≡ owed.old.steps ++ owed_after plans.now (step.Devreset reset.now)
        reply.now (with_region row parent) }
{
    let _ = plans;
    if let Reply::Devreset(Ok(changes)) = reply {
        owe_row(owed, reset.generation, row, parent, *changes);
    }
}

// Owes what follows from bytes that a device was sent.
fn owe_fed(
    owed: &mut Owed,
    plans: &Plans,
    feed: &Feed,
    reply: &Reply,
    row: Option<u8>,
    parent: Option<(u8, u8)>,
)
    requires guest { IsGiven feed.now.generation }
    requires room { MOST_OWED ≤ owed.old.room }
    ensures { owed.new.steps ≡ owed.old.steps ++ owed_after plans.now (step.Feed feed.now) reply.now
        (with_region row parent) }
{
    let _ = plans;
    if let Reply::Feed(Ok(changes)) = reply {
        owe_row(owed, feed.generation, row, parent, *changes);
    }
}

// Owes what follows from a sample.
fn owe_sampled(
    owed: &mut Owed,
    plans: &Plans,
    sample: Sample,
    reply: &Reply,
    row: Option<u8>,
    parent: Option<(u8, u8)>,
)
    requires slot { sample.generation.slot < SLOTS }
    requires room { MOST_OWED ≤ owed.old.room }
    ensures { owed.new.steps ≡ owed.old.steps ++ owed_after plans.now (step.Sample sample) reply.now
        (with_region row parent) }
{
    let _ = plans;
    let _ = row;
    let _ = parent;
    if let Reply::Sample(Some(sampled)) = reply {
        owed.owe(sample.generation, sample.parent, None, sampled.changes);
    }
}

/// Owes the interrupt steps that follow from a step, by the row of its region and that region's
/// interrupt parent.
pub(crate) fn owe(
    owed: &mut Owed,
    plans: &Plans,
    step: &Step,
    reply: &Reply,
    row: Option<u8>,
    parent: Option<(u8, u8)>,
)
    requires slot { IsInSlot step.now }
    requires room { MOST_OWED + GUEST_REGIONS ≤ owed.old.room }
    ensures { owed.new.steps
        ≡ owed.old.steps ++ owed_after plans.now step.now reply.now (with_region row parent) }
{
    match step {
        Step::Add(add) => owe_added(owed, plans, add, reply, row, parent),
        Step::Drop(drop) => owe_dropped(owed, plans, drop, reply, row, parent),
        Step::Devreset(reset) => owe_reset(owed, plans, reset, reply, row, parent),
        Step::Feed(feed) => owe_fed(owed, plans, feed, reply, row, parent),
        Step::Sample(sample) => owe_sampled(owed, plans, *sample, reply, row, parent),
        _ => {}
    }
}
