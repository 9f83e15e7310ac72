//! A terminal's line of several steps.
ghost use Rattle.std.specs.Prelude.{◌≡◌, ◌+◌, ◌<◌, ◌≤◌, ◌^◌, drop, length, slice_get, None, Some, Option, IfOk, IfSome};
ghost use Rattle.std.specs.Option.{option_copied, option_map};
ghost use Rattle.hv_rules.specs.Line as line;
ghost use Rattle.hv_rules.specs.Line.{begun, begun_for, change_step, first, given_vcpu, guest_name, left, learnt, line_after, moved, name_in, next_step, own_birth, own_vcpu, place_after, region_name, step_of, undoing};
ghost use Rattle.hv_programs.specs.Ask.{ask_of, asked_of, change_of, steps_in};
ghost use Rattle.hv_programs.specs.Line.{AreAsks, GivesSlot, IsAsk, IsGiven, IsGuest, IsPlanned, latest, place_of, refused_by, verdict_of, with_guest};

use crate::ask::{Ask, Asked, Change, Steps};
use crate::copied::copy_regions;
use crate::owed::vcpu_of;
use crate::verdict::{Verdict, refusal_at, verdict_at};
use hv_answer::Reply;
use hv_kinds::{Generation, Stage};
use hv_refusal::Refusal;
use hv_region::{GuestPlan, RegionPlan};
use hv_step::{
    Add, ByGuest, Devreset, Halt, Kick, Look, Name, Pause, Reset, Rest, Resume, Step, Vadd, Vdrop,
};
use hv_text::{Bytes, GUEST_REGIONS, GUEST_VCPUS};
use std::alloc::{AllocError, Global};
use std::marker::Model;
use std::snapshot::Snapshot;

/// The way that a line goes. The refusal is there for contracts alone.
#[derive(Drop)]
pub(crate) enum Way {
    On,
    /// It turned back, for a refusal.
    Back(Snapshot<Refusal>),
    /// It ended, for a refusal.
    Over(Snapshot<Refusal>),
}

/// A line that is begun.
#[derive(Drop)]
pub struct Line {
    asked: Asked,
    regions: Vec<RegionPlan>,
    guest: Option<(u8, u64)>,
    steps: Steps,
    /// How many of the steps stand.
    made: usize,
    way: Way,
}

impl Model for Line {
    ghost use Rattle.hv_rules.specs.Line.{LineState};

    ghost Value = { LineState };

    ghost use Rattle.hv_programs.specs.Ask.{asked_of, steps_in};
    ghost use Rattle.hv_programs.specs.Line.{IsKept, place_of};

    ghost view = { λ l. record {
      asked = asked_of l.asked;
      regions = l.regions.items;
      guest = l.guest;
      place = place_of l.way (steps_in l.steps) l.made;
    } };

    ghost invariant = { λ l. IsKept (steps_in l.steps) l.made l.guest };
}

// What undoes a step that was made.
fn undoing(ask: Ask) -> Ask
    ensures { ask_of result ≡ undoing (ask_of ask) }
{
    match ask {
        Ask::Add(row) => Ask::Drop(Stage::Making, row),
        _ => Ask::Turn(Stage::Making, None),
    }
}

// The step that is asked next.
fn next_in(way: &Way, steps: &Steps, made: usize) -> Option<Ask>
    requires stands { made ≤ length (steps_in steps.now) }
    requires asks { AreAsks (steps_in steps.now) }
    ensures next { option_map ask_of result
        ≡ first (left (place_of way.now (steps_in steps.now) made)) }
    ensures ask { IfSome result (λ ask. IsAsk (ask_of ask)) }
{
    match way {
        Way::On => {
            if made < steps.len() {
                return Some(steps.at(made));
            }
            None
        }
        Way::Back(_) => {
            if made == 0 {
                return None;
            }
            Some(undoing(steps.at(made - 1)))
        }
        Way::Over(_) => None,
    }
}

// Moves a line by a reply.
fn place_after(way: &mut Way, steps: &Steps, made: &mut usize, reply: &Reply)
    requires { made.old ≤ length (steps_in steps.now) }
    ensures stands { made.new ≤ length (steps_in steps.now) }
    ensures place { place_of way.new (steps_in steps.now) made.new
        ≡ place_after (place_of way.old (steps_in steps.now) made.old) reply.now }
{
    match way {
        Way::On => {
            if *made < steps.len() {
                match verdict_at(*made, steps.at(*made), reply) {
                    Verdict::GoesOn => *made += 1,
                    Verdict::TurnsBack(why) => *way = Way::Back(why),
                    Verdict::Ends(why) => *way = Way::Over(why),
                }
            }
        }
        Way::Back(_) => {
            if *made > 0 {
                *made -= 1;
            }
        }
        Way::Over(_) => {}
    }
}

// For what a reply to the step that is next ends a line or turns it back.
fn refused_in<'a>(way: &Way, steps: &Steps, made: usize, reply: &'a Reply) -> Option<&'a Refusal>
    requires { made ≤ length (steps_in steps.now) }
    ensures { option_copied result
        ≡ refused_by (place_of way.now (steps_in steps.now) made) reply.now }
{
    match way {
        Way::On => {
            if made < steps.len() {
                return refusal_at(made, steps.at(made), reply);
            }
            None
        }
        Way::Back(_) => None,
        Way::Over(_) => None,
    }
}

// The step that is asked next, once so many steps stood and a verdict moved the line.
fn next_by(verdict: Verdict, steps: &Steps, made: usize) -> Option<Ask>
    requires stands { made < length (steps_in steps.now) }
    requires bounded { length (steps_in steps.now) < 2 ^ 64 }
    requires asks { AreAsks (steps_in steps.now) }
    ensures { (ask : line.Ask) → option_map ask_of result
        ≡ first (left (moved (latest (steps_in steps.now) made) ask
        (drop (made + 1) (steps_in steps.now)) (verdict_of verdict))) }
{
    match verdict {
        Verdict::GoesOn => next_in(&Way::On, steps, made + 1),
        Verdict::TurnsBack(why) => {
            let back = Way::Back(why);
            next_in(&back, steps, made)
        }
        Verdict::Ends(_) => None,
    }
}

// The step that is asked next, once a line has taken a reply.
fn next_after(way: &Way, steps: &Steps, made: usize, reply: &Reply) -> Option<Ask>
    requires stands { made ≤ length (steps_in steps.now) }
    requires asks { AreAsks (steps_in steps.now) }
    ensures { option_map ask_of result
        ≡ first (left (place_after (place_of way.now (steps_in steps.now) made) reply.now)) }
{
    match way {
        Way::On => {
            if made < steps.len() {
                return next_by(verdict_at(made, steps.at(made), reply), steps, made);
            }
            None
        }
        Way::Back(_) => {
            if made > 0 {
                return next_in(way, steps, made - 1);
            }
            None
        }
        Way::Over(_) => None,
    }
}

// The guest that a line knows, once a reply has told it or handed it over.
fn learnt(guest: Option<(u8, u64)>, reply: &Reply, handed: Option<(u8, u64)>) -> Option<(u8, u64)>
    requires guest { IsGuest guest }
    requires handed { IsGuest handed }
    requires slot { GivesSlot reply.now }
    ensures learnt { result ≡ learnt guest reply.now (with_guest handed) }
    ensures guest { IsGuest result }
{
    match reply {
        Reply::Name(Ok(claimed)) => Some((claimed.slot, claimed.birth)),
        Reply::Stage(Ok(_)) => handed,
        _ => guest,
    }
}

fn guest_name(asked: &Asked) -> &[u8]
    ensures { result.now ≡ guest_name (asked_of asked.now) }
{
    match asked {
        Asked::Create(name) => name.as_slice(),
        Asked::Destroy(name) => name.as_slice(),
        Asked::EachVcpu(_, name) => name.as_slice(),
        _ => &[],
    }
}

fn copy_of(alloc: Global, bytes: &[u8]) -> Result<Bytes, AllocError>
    ensures { IfOk result (λ copy. copy ≡ bytes.now) }
{
    Ok(Bytes::from_vec(Vec::from_slice(alloc, bytes)?))
}

// The name of the region in a row.
fn region_name(alloc: Global, regions: &[RegionPlan], row: u8) -> Result<Bytes, AllocError>
    ensures { IfOk result (λ name. name ≡ name_in (slice_get regions.now row)) }
{
    match regions.get(row as usize) {
        Some(region) => region.name.clone(),
        None => Ok(Bytes::from_vec(Vec::new(alloc))),
    }
}

/// The number of a guest's VCPU on the board, and 0 where the directory gives no guest.
pub fn given_vcpu(given: Option<Generation>, index: u8) -> u8
    requires given { IsGiven given }
    requires index { index < GUEST_VCPUS }
    ensures { result ≡ given_vcpu given index }
{
    match given {
        None => 0,
        Some(generation) => vcpu_of(generation.slot, index),
    }
}

fn own_vcpu(guest: Option<(u8, u64)>, index: u8) -> u8
    requires guest { IsGuest guest }
    requires index { index < GUEST_VCPUS }
    ensures { result ≡ own_vcpu guest index }
{
    match guest {
        None => 0,
        Some((slot, _)) => vcpu_of(slot, index),
    }
}

fn own_birth(guest: Option<(u8, u64)>) -> u64
    ensures { result ≡ own_birth guest }
{
    match guest {
        None => 0,
        Some((_, birth)) => birth,
    }
}

// A change of a VCPU by its guest's name.
fn change_step(change: Change, vcpu: u8, by: ByGuest) -> Step
    ensures { result ≡ change_step (change_of change) vcpu by }
{
    let guest = Some(by);
    match change {
        Change::Kick => Step::Kick(Kick { vcpu, guest }),
        Change::Resume => Step::Resume(Resume { vcpu, guest }),
        Change::Pause => Step::Pause(Pause { vcpu, guest }),
        Change::Halt => Step::Halt(Halt { vcpu, guest }),
        Change::Reset => Step::Reset(Reset { vcpu, guest }),
    }
}

impl Line {
    /// Begins a line of a guest with this plan, or of none with a good plan.
    pub fn begin(alloc: Global, asked: Asked, plan: Option<&GuestPlan>) -> Result<Line, AllocError>
        requires { IsPlanned (option_copied plan) }
        ensures { IfOk result (λ line.
            line ≡ begun_for (asked_of asked) (option_copied plan.entry)) }
    {
        match plan {
            None => Line::with_plan(alloc, asked, 1, &[]),
            Some(plan) => Line::with_plan(
                alloc,
                asked,
                plan.vcpus.len() as u8,
                plan.regions.as_slice(),
            ),
        }
    }

    // Begins a line of a guest with so many VCPUs and these regions.
    fn with_plan(
        alloc: Global,
        asked: Asked,
        vcpus: u8,
        regions: &[RegionPlan],
    ) -> Result<Line, AllocError>
        requires vcpus { vcpus ≤ GUEST_VCPUS }
        requires regions { length regions.now ≤ GUEST_REGIONS }
        ensures { IfOk result (λ line. line ≡ begun (asked_of asked) vcpus regions.now) }
    {
        let steps = Steps::of(alloc, &asked, vcpus, regions)?;
        let regions = copy_regions(alloc, regions)?;
        Ok(Line {
            asked,
            regions,
            guest: None,
            steps,
            made: 0,
            way: Way::On,
        })
    }

    /// What it asks for next, or None where it is over.
    pub fn next_ask(&self) -> Option<Ask>
        ensures next { option_map ask_of result ≡ first (left self.now.place) }
        ensures ask { IfSome result (λ ask. IsAsk (ask_of ask)) }
        ensures guest { IsGuest self.now.guest }
    {
        next_in(&self.way, &self.steps, self.made)
    }

    /// What it asks for next once it took this reply, or None where it is over then.
    pub fn next_ask_after(&self, reply: &Reply) -> Option<Ask>
        ensures { option_map ask_of result
            ≡ first (left (place_after self.now.place reply.now)) }
    {
        next_after(&self.way, &self.steps, self.made, reply)
    }

    /// What it asks for as a whole.
    pub fn asked(&self) -> &Asked
        ensures { asked_of result.now ≡ self.now.asked }
    {
        &self.asked
    }

    /// The name of the guest that it is about, or no bytes.
    pub fn guest_name(&self) -> &[u8]
        ensures { result.now ≡ guest_name self.now.asked }
    {
        guest_name(&self.asked)
    }

    fn name(&self, alloc: Global) -> Result<Bytes, AllocError>
        ensures { IfOk result (λ name. name ≡ guest_name self.now.asked) }
    {
        copy_of(alloc, guest_name(&self.asked))
    }

    fn region(&self, alloc: Global, row: u8) -> Result<Bytes, AllocError>
        ensures { IfOk result (λ name. name ≡ region_name self.now row) }
    {
        region_name(alloc, &self.regions, row)
    }

    // The step that is asked, where the directory gives this generation.
    fn step_of(
        &self,
        alloc: Global,
        given: Option<Generation>,
        ask: Ask,
    ) -> Result<Step, AllocError>
        requires given { IsGiven given }
        requires ask { IsAsk (ask_of ask) }
        requires guest { IsGuest self.now.guest }
        ensures { IfOk result (λ step. step ≡ step_of self.now given (ask_of ask)) }
    {
        match ask {
            Ask::Rest => Ok(Step::Rest(Rest)),
            Ask::Look(vcpu) => Ok(Step::Look(Look { vcpu })),
            Ask::Claim => Ok(Step::Name(Name {
                name: self.name(alloc)?,
            })),
            Ask::Turn(from, to) => Ok(Step::Stage(hv_step::Stage {
                name: self.name(alloc)?,
                from,
                to,
            })),
            Ask::Add(row) => {
                let name = self.name(alloc)?;
                let region = self.region(alloc, row)?;
                Ok(Step::Add(Add {
                    name,
                    region,
                    stage: Stage::Making,
                    generation: given,
                }))
            }
            Ask::Drop(stage, row) => {
                let name = self.name(alloc)?;
                let region = self.region(alloc, row)?;
                Ok(Step::Drop(hv_step::Drop {
                    name,
                    region,
                    stage,
                    generation: given,
                }))
            }
            Ask::AddVcpu(index) => Ok(Step::Vadd(Vadd {
                vcpu: own_vcpu(self.guest, index),
                birth: own_birth(self.guest),
            })),
            Ask::DropVcpu(index) => Ok(Step::Vdrop(Vdrop {
                vcpu: own_vcpu(self.guest, index),
            })),
            Ask::Change(change, index) => {
                let by = ByGuest {
                    name: self.name(alloc)?,
                    generation: given,
                };
                Ok(change_step(change, given_vcpu(given, index), by))
            }
            Ask::ResetDevice(row) => {
                let name = self.name(alloc)?;
                let region = self.region(alloc, row)?;
                Ok(Step::Devreset(Devreset {
                    name,
                    region,
                    generation: given,
                }))
            }
        }
    }

    /// Its next step, where the directory gives this generation, or None where it is over.
    pub fn next_step(
        &self,
        alloc: Global,
        given: Option<Generation>,
    ) -> Result<Option<Step>, AllocError>
        requires { IsGiven given }
        ensures { IfOk result (λ step. step ≡ next_step self.now given) }
    {
        match self.next_ask() {
            None => Ok(None),
            Some(ask) => Ok(Some(self.step_of(alloc, given, ask)?)),
        }
    }

    /// For what a reply to its next step ends it or turns it back, if it does.
    pub fn why_refused<'a>(&self, reply: &'a Reply) -> Option<&'a Refusal>
        ensures { option_copied result ≡ refused_by self.now.place reply.now }
    {
        refused_in(&self.way, &self.steps, self.made, reply)
    }

    /// Takes the reply to its next step, with slot and birth of the guest that are handed over.
    pub fn took(&mut self, reply: &Reply, guest: Option<(u8, u64)>)
        requires guest { IsGuest guest }
        requires slot { GivesSlot reply.now }
        ensures { self.new ≡ line_after self.old reply.now (with_guest guest) }
    {
        self.guest = learnt(self.guest, reply, guest);
        place_after(&mut self.way, &self.steps, &mut self.made, reply);
    }
}
