//! A hart's program.
ghost use Rattle.std.specs.Prelude.{◌≡◌, ◌≤◌, ◌<◌, true, Option, Some, None, ℕ, OnOk};
ghost use Rattle.std.specs.Option.{option_map};
ghost use Rattle.hv_answer.specs.declared.reply.Reply.{Reply};
ghost use Rattle.hv_step.specs.declared.step.Step.{Step};
ghost use Rattle.hv_step.specs.declared.step.Step.TheVariants as step;
ghost use Rattle.hv_handed.specs.Given.{pended};
ghost use Rattle.hv_rules.specs.Carry.{Carry};
ghost use Rattle.hv_handed.specs.declared.pending.Pending.{Pending};
ghost use Rattle.hv_rules.specs.Hart.{HartState, row_of, turn_row, with_current, waits_for, turned, used_up, with_used, without_vcpu, without_pending, with_owed, paid, ticked_signals, fetched, faulted, hart_after};
ghost use Rattle.hv_rules.specs.Hart as rules;
ghost use Rattle.hv_rules.specs.Owed.{owed_for};
ghost use Rattle.hv_programs.specs.Hart.{HasSlice, HasSliceFor, MayMake, at_start, current_of, handed, row_seen};

use crate::owed::{MOST_OWED, Owed};
use crate::row::{Row, Running};
use hv_answer::{Outcome, Reply};
use hv_handed::Pending;
use hv_kinds::{AccessKind, Generation, SignalChanges};
use hv_step::{Access, Dispatch, Fetch, Sample, Step, Tick};
use hv_text::SLOTS;
use std::alloc::{AllocError, Global};
use std::marker::Model;

/// What a hart keeps, which contracts see as its state with room for steps that it may owe.
#[derive(Debug, Drop)]
pub struct HartProgram {
    harts: u8,
    left: u32,
    turns: u32,
    ticked: bool,
    current: Option<Running>,
    pending: Option<(Pending, Generation)>,
    owed: Owed,
}

impl Model for HartProgram {
    ghost use Rattle.std.specs.Prelude.{◌+◌, ◌<◌, ◌^◌};
    ghost use Rattle.std.specs.Option.{option_map};
    ghost use Rattle.hv_programs.specs.Hart.{HartKept, current_of, waiting_of};

    ghost Value = { HartKept };

    ghost view = { λ h. record {
      hart = record {
        harts = h.harts;
        left = h.left;
        turns = h.turns;
        ticked = h.ticked;
        current = option_map current_of h.current;
        pending = option_map waiting_of h.pending;
        owed = h.owed.steps;
      };
      room = h.owed.room;
    } };

    ghost invariant = { λ h. h.left + h.turns < 2 ^ 32 };
}

// The row of an access that is pending.
fn waits_for(current: Option<Running>, pending: Pending, generation: Generation) -> Row
    ensures { row_seen result
        ≡ waits_for (option_map current_of current) (pended pending) generation }
{
    match current {
        Some(running) => Row::Waits {
            vcpu: running.vcpu,
            pending,
            generation,
        },
        None => Row::Free,
    }
}

// The row of a hart that runs a VCPU, or none.
fn with_current(current: Option<Running>) -> Row
    ensures { row_seen result ≡ with_current (option_map current_of current) }
{
    match current {
        Some(running) => Row::Runs(running),
        None => Row::Free,
    }
}

// What a hart runs, once one more turn of the slice is used.
fn used_up(current: Option<Running>) -> Option<Running>
    requires { HasSlice (option_map current_of current) }
    ensures { option_map current_of result ≡ used_up (option_map current_of current) }
{
    let running = current?;
    Some(Running {
        used: running.used + 1,
        ..running
    })
}

impl HartProgram {
    /// A hart at the start, of so many, with so many turns to make.
    pub fn new(alloc: Global, harts: u8, turns: u32) -> HartProgram
        ensures { result.hart ≡ at_start harts turns }
    {
        HartProgram {
            harts,
            left: turns,
            turns: 0,
            ticked: false,
            current: None,
            pending: None,
            owed: Owed::new(alloc),
        }
    }

    /// Makes room for what the next step may owe. At `Err` the hart is as it was.
    pub fn make_room(&mut self) -> Result<(), AllocError>
        ensures room { OnOk result (MOST_OWED ≤ self.new.room) }
        ensures hart { self.new.hart ≡ self.old.hart }
        ensures kept { self.old.room ≤ self.new.room }
    {
        self.owed.make_room(MOST_OWED)
    }

    // What a hart's state says, where nothing is owed and no access is pending.
    fn turn_row(&self, number: u8) -> Row
        ensures { row_seen result ≡ turn_row number self.now.hart self.now.hart.left }
    {
        if self.left == 0 {
            return Row::Ends;
        }
        if number == 0 && !self.ticked {
            return Row::Ticks {
                slot: (self.turns % SLOTS as u32) as u8,
            };
        }
        with_current(self.current)
    }

    /// What its state says of its next step, if it is the hart of this number.
    pub fn due(&self, number: u8) -> Row
        ensures { row_seen result ≡ row_of number self.now.hart }
    {
        if let Some(next) = self.owed.next() {
            return Row::Owes(next);
        }
        match self.pending {
            Some((pending, generation)) => waits_for(self.current, pending, generation),
            None => self.turn_row(number),
        }
    }

    // Ends a turn.
    fn turn(&mut self)
        requires { 0 < self.old.hart.left }
        ensures hart { self.new.hart ≡ turned self.old.hart }
        ensures room { self.new.room ≡ self.old.room }
    {
        self.left -= 1;
        self.turns += 1;
        self.ticked = false;
    }

    // Uses one more turn of the slice.
    fn use_slice(&mut self)
        requires { HasSlice self.old.hart.current }
        ensures hart { self.new.hart ≡ with_used self.old.hart }
        ensures room { self.new.room ≡ self.old.room }
    {
        self.current = used_up(self.current);
    }

    // Lets the VCPU go.
    fn let_go(&mut self)
        ensures hart { self.new.hart ≡ without_vcpu self.old.hart }
        ensures room { self.new.room ≡ self.old.room }
    {
        self.current = None;
        self.pending = None;
    }

    // Ends the access that is pending.
    fn end_access(&mut self)
        ensures hart { self.new.hart ≡ without_pending self.old.hart }
        ensures room { self.new.room ≡ self.old.room }
    {
        self.pending = None;
    }

    // Takes the owed step away that was made.
    fn pay(&mut self)
        ensures hart { self.new.hart ≡ paid self.old.hart }
        ensures room { self.old.room ≤ self.new.room }
    {
        self.owed.pop();
    }

    // Owes what follows from a change of a region's signals.
    fn owe(
        &mut self,
        generation: Generation,
        row: u8,
        parent: Option<(u8, u8)>,
        changes: SignalChanges,
    )
        requires slot { generation.slot < SLOTS }
        requires room { MOST_OWED ≤ self.old.room }
        ensures { self.new.hart ≡ with_owed self.old.hart (owed_for generation row parent changes) }
    {
        self.owed.owe(generation, row, parent, changes);
    }

    // Has made its tick.
    fn tick(&mut self)
        ensures hart { self.new.hart ≡ record self.old.hart { ticked = true } }
        ensures room { self.new.room ≡ self.old.room }
    {
        self.ticked = true;
    }

    // Runs a VCPU from now on.
    fn run(&mut self, vcpu: u8, slice: u32)
        ensures hart { self.new.hart ≡ record self.old.hart {
          current = Some (record { vcpu = vcpu; slice = slice; used = 0 });
        } }
        ensures room { self.new.room ≡ self.old.room }
    {
        self.current = Some(Running {
            vcpu,
            slice,
            used: 0,
        });
    }

    // Keeps the access that an instruction leaves pending.
    fn keep_access(&mut self, pending: Option<Pending>, generation: Generation)
        ensures hart { self.new.hart ≡ record self.old.hart {
          pending = rules.pended (option_map pended pending) generation;
        } }
        ensures room { self.new.room ≡ self.old.room }
    {
        self.pending = match pending {
            Some(pending) => Some((pending, generation)),
            None => None,
        };
    }

    // Takes the reply to a sample that it owed.
    fn took_sample(&mut self, sample: Sample, reply: &Reply)
        requires slot { sample.generation.slot < SLOTS }
        requires room { MOST_OWED ≤ self.old.room }
        ensures { (c : Carry) → self.new.hart
            ≡ hart_after self.old.hart (step.Sample sample) reply.now c }
    {
        match reply {
            Reply::Sample(None) => self.pay(),
            Reply::Sample(Some(sampled)) => {
                self.pay();
                self.owe(sample.generation, sample.parent, None, sampled.changes);
            }
            _ => {}
        }
    }

    // Owes what follows from the tick of a slot's clock, if it has one.
    #[tactic(auto, using(std::proofs::lemmas::Grind::common_steps))]
    fn owe_ticked(
        &mut self,
        slot: u8,
        clock: Option<(u8, u64)>,
        parent: Option<(u8, u8)>,
        changes: SignalChanges,
    )
        requires slot { slot < SLOTS }
        requires room { MOST_OWED ≤ self.old.room }
        ensures { self.new.hart
            ≡ with_owed self.old.hart (ticked_signals slot clock parent changes) }
    {
        if let Some((row, birth)) = clock {
            self.owe(Generation { slot, birth }, row, parent, changes);
        }
    }

    // Takes the reply to a tick of a slot's clock, with the clock's row and birth, and its parent.
    fn took_tick(
        &mut self,
        tick: Tick,
        reply: &Reply,
        clock: Option<(u8, u64)>,
        parent: Option<(u8, u8)>,
    )
        requires slot { tick.slot < SLOTS }
        requires room { MOST_OWED ≤ self.old.room }
        ensures { (pending : Option Pending) → self.new.hart
            ≡ hart_after self.old.hart (step.Tick tick) reply.now (handed pending clock parent) }
    {
        match reply {
            Reply::Tick(None) => self.tick(),
            Reply::Tick(Some(changes)) => {
                self.tick();
                self.owe_ticked(tick.slot, clock, parent, *changes);
            }
            _ => {}
        }
    }

    // Takes the reply to a dispatch.
    fn took_dispatch(&mut self, dispatch: Dispatch, reply: &Reply)
        requires { 0 < self.old.hart.left }
        ensures { (c : Carry) → self.new.hart
            ≡ hart_after self.old.hart (step.Dispatch dispatch) reply.now c }
    {
        if let Reply::Dispatch(Ok(slice)) = reply {
            self.run(dispatch.vcpu, *slice);
        }
        self.turn();
    }

    // Takes what came of an instruction, with the access that it leaves pending.
    fn took_outcome(&mut self, generation: Generation, outcome: Outcome, pending: Option<Pending>)
        requires left { 0 < self.old.hart.left }
        requires slice { HasSlice self.old.hart.current }
        ensures { (clock parent : Option (ℕ × ℕ)) → self.new.hart
            ≡ fetched self.old.hart generation outcome (handed pending clock parent) }
    {
        match outcome {
            Outcome::Access => {
                self.use_slice();
                self.keep_access(pending, generation);
            }
            Outcome::Wait => {
                self.let_go();
                self.turn();
            }
            Outcome::Done => {
                self.use_slice();
                self.turn();
            }
            Outcome::Trap(_) => {
                self.use_slice();
                self.turn();
            }
        }
    }

    // Takes the reply to a fetch.
    fn took_fetch(&mut self, fetch: Fetch, reply: &Reply, pending: Option<Pending>)
        requires left { 0 < self.old.hart.left }
        requires slice { HasSlice self.old.hart.current }
        ensures { (clock parent : Option (ℕ × ℕ)) → self.new.hart
            ≡ hart_after self.old.hart (step.Fetch fetch) reply.now (handed pending clock parent) }
    {
        match reply {
            Reply::Fetch(Some(fetched)) => self.took_outcome(
                fetch.generation,
                fetched.outcome,
                pending,
            ),
            Reply::Fetch(None) => {
                self.use_slice();
                self.turn();
            }
            _ => {}
        }
    }

    // Takes the reply to an access, with the parent of the row that it reached.
    fn took_access(&mut self, access: Access, reply: &Reply, parent: Option<(u8, u8)>)
        requires left { 0 < self.old.hart.left }
        requires slot { access.generation.slot < SLOTS }
        requires room { MOST_OWED ≤ self.old.room }
        ensures { (pending : Option Pending) (clock : Option (ℕ × ℕ)) → self.new.hart
            ≡ hart_after self.old.hart (step.Access access) reply.now
            (handed pending clock parent) }
    {
        match reply {
            Reply::Access(None) => {
                self.end_access();
                self.turn();
            }
            Reply::Access(Some(accessed)) => {
                self.end_access();
                self.turn();
                self.owe(access.generation, access.row, parent, accessed.changes);
            }
            _ => {}
        }
    }

    // Has faulted.
    fn took_fault(&mut self, access: AccessKind)
        requires left { 0 < self.old.hart.left }
        requires slice { HasSliceFor self.old.hart.current access }
        ensures { self.new.hart ≡ faulted self.old.hart access }
    {
        match access {
            AccessKind::Execute => self.use_slice(),
            AccessKind::Read => self.end_access(),
            AccessKind::Write => self.end_access(),
        }
        self.turn();
    }

    /// Takes the reply to its next step, with what is handed over: the access that an instruction
    /// leaves pending, row and birth of the clock that ticks, and the interrupt parent of a region.
    pub fn took(
        &mut self,
        step: &Step,
        reply: &Reply,
        pending: Option<Pending>,
        clock: Option<(u8, u64)>,
        parent: Option<(u8, u8)>,
    )
        requires may { MayMake self.old.hart step.now }
        requires room { MOST_OWED ≤ self.old.room }
        ensures { self.new.hart
            ≡ hart_after self.old.hart step.now reply.now (handed pending clock parent) }
    {
        match step {
            Step::Sample(sample) => self.took_sample(*sample, reply),
            Step::Pin(_) => self.pay(),
            Step::Tick(tick) => self.took_tick(*tick, reply, clock, parent),
            Step::Idle(_) => self.turn(),
            Step::Dispatch(dispatch) => self.took_dispatch(*dispatch, reply),
            Step::Preempt(_) => {
                self.let_go();
                self.turn();
            }
            Step::Leave(_) => {
                self.let_go();
                self.turn();
            }
            Step::Take(_) => {
                self.use_slice();
                self.turn();
            }
            Step::Balance(_) => {
                self.use_slice();
                self.turn();
            }
            Step::Fetch(fetch) => self.took_fetch(*fetch, reply, pending),
            Step::Access(access) => self.took_access(*access, reply, parent),
            Step::Fault(fault) => self.took_fault(fault.access),
            _ => {}
        }
    }
}
