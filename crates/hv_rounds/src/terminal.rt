//! A terminal of a run.
ghost use Rattle.std.specs.Prelude.{◌≡◌, ◌≤◌, ◌<◌, ◌+◌, ◌^◌, ◌↔◌, ℕ, max, Some, None, Err, IfOk, OnOk, IsTrue, false};
ghost use Rattle.hv_text.specs.declared.limits.TheConstants.{GREATEST_STAMP, MOST_LINES};

use crate::scripts::OpenScripts;
use crate::stop::Stop;
use hv_event::{ActorId, Event, Reply, Step};
use hv_model::{Carry, Entry};
use hv_text::{Bytes, GREATEST_STAMP};
use std::alloc::{AllocError, Global};

/// A terminal: where its program stands, its stamp, and what it has shown.
#[derive(Drop)]
pub struct Terminal {
    pub number: u8,
    /// How many events it made.
    pub count: u64,
    /// The stamp of its last event, or that with which it began.
    pub stamp: u64,
    /// How many steps its present line has, or its last one had, where it rests.
    pub asked: u64,
    /// How many steps its present line has left.
    pub rests: u64,
    /// The open scripts of its boot script.
    pub boot: OpenScripts,
    /// The open scripts of its own script.
    pub own: OpenScripts,
    /// How many lines all scripts have that it opened.
    pub lines: u64,
    /// Its transcript.
    pub shown: Bytes,
    ghost lines_bounded: { lines ≤ MOST_LINES },
    ghost rests_bounded: { rests ≤ asked },
    ghost count_bounded: { count ≤ stamp },
    ghost stamp_bounded: { stamp ≤ GREATEST_STAMP },
}

/// The stamp of a step that touches what has these stamps.
pub fn next_stamp(one: u64, other: u64) -> Result<u64, Stop>
    requires one { one ≤ GREATEST_STAMP }
    requires other { other ≤ GREATEST_STAMP }
    ensures ok { IfOk result (λ stamp. stamp ≡ max one other + 1) }
    ensures in_range { IfOk result (λ stamp. stamp ≤ GREATEST_STAMP) }
    ensures spent { (n : ℕ) → result ≡ Err (Stop.Spent n) → (n ≡ GREATEST_STAMP) × (max one other ≡ n) }
{
    let greatest = one.max(other);
    if greatest == GREATEST_STAMP {
        return Err(Stop::Spent(greatest));
    }
    Ok(greatest + 1)
}

impl Terminal {
    ghost use Rattle.hv_rounds.specs.Cells.{session_of, SameButScripts, MadeOne, BeginsAt};
    ghost use Rattle.hv_model.specs.Session.{begun, has_ended, HasBooted};
    ghost use Rattle.hv_rounds.specs.Step.{Makes};

    /// Whether its boot script has ended.
    pub fn is_booted(&self) -> bool
        ensures { IsTrue result ↔ HasBooted (session_of self.now) }
    {
        self.rests == 0 && self.boot.is_over()
    }

    /// Whether its program has ended.
    pub fn has_ended(&self) -> bool
        ensures { result ≡ has_ended (session_of self.now) }
    {
        self.rests == 0 && self.boot.is_over() && self.own.is_over()
    }

    /// Begins the next command, and gives its line.
    pub fn begin(&mut self, alloc: Global) -> Result<Bytes, AllocError>
        requires line_done { self.old.rests ≡ 0 }
        requires left { has_ended (session_of self.old) ≡ false }
        ensures line { IfOk result (λ line.
            begun (session_of self.old) ≡ Some (record { line = line; boot = self.new.boot; own = self.new.own })) }
        ensures rest { OnOk result (SameButScripts self.old self.new) }
    {
        if let Some(line) = self.boot.begin(alloc)? {
            return Ok(line);
        }
        match self.own.begin(alloc)? {
            Some(line) => Ok(line),
            None => unreachable!(),
        }
    }

    /// The entry of its next event, which it then has made.
    pub fn make(&mut self, stamp: u64, step: Step, reply: Reply, lines: Option<u64>) -> Entry
        requires later { self.old.stamp < stamp }
        requires in_range { stamp ≤ GREATEST_STAMP }
        ensures entry { Makes self.old.number (self.old.count + 1) stamp step reply lines result }
        ensures rest { MadeOne self.old self.new stamp }
    {
        self.count += 1;
        self.stamp = stamp;
        Entry {
            event: Event {
                actor: ActorId::Terminal(self.number),
                index: self.count,
                stamp,
                step,
                reply,
            },
            carry: Carry { lines },
        }
    }

    /// Takes a stamp to begin with.
    pub fn begin_at(&mut self, stamp: u64)
        requires counted { self.old.count ≤ stamp }
        requires in_range { stamp ≤ GREATEST_STAMP }
        ensures { BeginsAt self.old self.new stamp }
    {
        self.stamp = stamp;
    }
}
