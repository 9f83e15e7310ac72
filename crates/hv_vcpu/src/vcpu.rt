//! A VCPU.
ghost use Rattle.std.specs.Prelude.{◌≡◌, ◌<◌, IsTrue};
ghost use Rattle.std.specs.Option.{option_copied};
ghost use Rattle.hv_exec.specs.Operation.{IsSize};
ghost use Rattle.hv_vcpu.specs.Instruction.{carried_out};
ghost use Rattle.hv_vcpu.specs.Table.{led, is_running};
ghost use Rattle.hv_vcpu.specs.Vcpu.{unknown, IsVcpu, IsMove, IsFetched, answered, stepped, birth_of, plan_of, started, joined, after_fetch, after_trap, loaded, stored, with_pins, wakes, woken};

use crate::instruction::carry_out;
use crate::moves::{Move, WrongState};
use crate::table::led;
use hv_exec::{After, Ctx, finish_load, finish_store};
use hv_kinds::{Pins, State};
use hv_region::VcpuPlan;
use hv_text::GUEST_REGIONS;
use hv_trap::trap;
use std::marker::Model;

const NO_PINS: Pins = Pins {
    ext: false,
    soft: false,
    timer: false,
};

const NO_PLAN: VcpuPlan = VcpuPlan {
    start: 0,
    priority: 0,
    slice: 1,
};

/// A VCPU, which contracts see as the record of its fields.
#[derive(Drop)]
pub struct Vcpu {
    state: State,
    birth: u64,
    index: u8,
    plan: VcpuPlan,
    context: Ctx,
    pins: [Pins; GUEST_REGIONS],
}

impl Model for Vcpu {
    ghost use Rattle.hv_vcpu.specs.Vcpu.{VcpuValue, IsVcpu};

    ghost Value = { VcpuValue };

    ghost view = { λ v. record { state = v.state; birth = v.birth; index = v.index; plan = v.plan; context = v.context; pins = v.pins } };

    ghost invariant = { λ v. IsVcpu (record { state = v.state; birth = v.birth; index = v.index; plan = v.plan; context = v.context; pins = v.pins }) };
}

impl Vcpu {
    /// A VCPU that isn't there: its state is Unknown.
    pub fn new() -> Vcpu
        ensures { result ≡ unknown }
    {
        Vcpu {
            state: State::Unknown,
            birth: 0,
            index: 0,
            plan: NO_PLAN,
            context: started(0, 0, NO_PINS),
            pins: [NO_PINS; GUEST_REGIONS],
        }
    }

    pub fn state(&self) -> State
        ensures state { result ≡ self.now.state }
        ensures rules { IsVcpu self.now }
    {
        self.state
    }

    /// Its registers; the pins in it are joined from all regions.
    pub fn ctx(&self) -> &Ctx
        ensures context { result.now ≡ self.now.context }
        ensures joined { self.now.context.pins ≡ joined self.now.pins }
    {
        &self.context
    }

    /// How many guests were claimed before its own, or None while its state is Unknown.
    pub fn birth(&self) -> Option<u64>
        ensures { result ≡ birth_of self.now }
    {
        match self.state {
            State::Unknown => None,
            _ => Some(self.birth),
        }
    }

    /// How it begins, or None while its state is Unknown.
    pub fn plan(&self) -> Option<&VcpuPlan>
        ensures { option_copied result ≡ plan_of self.now }
    {
        match self.state {
            State::Unknown => None,
            _ => Some(&self.plan),
        }
    }

    /// Makes a move. A move that is refused changes nothing.
    pub fn step(&mut self, to: Move) -> Result<(), WrongState>
        requires { IsMove to }
        ensures answer { result ≡ answered (led to self.old.state) }
        ensures after { self.new ≡ stepped to self.old }
    {
        let state = led(to, self.state)?;
        match to {
            Move::Add { birth, index, plan } => {
                *self = Vcpu {
                    state,
                    birth,
                    index,
                    plan,
                    context: started(plan.start, index, NO_PINS),
                    pins: [NO_PINS; GUEST_REGIONS],
                };
            }
            Move::Reset => {
                self.state = state;
                self.context = started(self.plan.start, self.index, self.context.pins);
            }
            Move::Drop => *self = Vcpu::new(),
            _ => self.state = state,
        }
        Ok(())
    }

    /// Carries out the instruction that was fetched, but for the access of a load or a store. A trap is entered,
    /// and after WFI without a pending interrupt that is enabled the VCPU waits.
    pub fn fetched(&mut self, word: u32) -> After
        requires running { IsTrue (is_running self.old.state) }
        ensures answer { result ≡ (carried_out self.old.context word).answer }
        ensures after { self.new ≡ after_fetch self.old word }
        ensures whole { IsFetched self.old self.new result }
    {
        let after = carry_out(&mut self.context, word);
        if after == After::Wait {
            self.state = State::Paused(true);
        }
        after
    }

    /// Enters a trap, of an interrupt, or of an instruction or an access that no region gave.
    pub fn trapped(&mut self, cause: u64, value: u64)
        requires running { IsTrue (is_running self.old.state) }
        ensures { self.new ≡ after_trap self.old cause value }
    {
        trap(&mut self.context, cause, value);
    }

    /// Ends a load with the value that was read, of which the lowest `size` bytes count.
    pub fn loaded(&mut self, size: u8, signed: bool, rd: u8, value: u64)
        requires running { IsTrue (is_running self.old.state) }
        requires size { IsSize size }
        requires register { rd < 32 }
        ensures { self.new ≡ loaded self.old size signed rd value }
    {
        finish_load(&mut self.context, size, signed, rd, value);
    }

    /// Ends a store.
    pub fn stored(&mut self)
        requires running { IsTrue (is_running self.old.state) }
        ensures { self.new ≡ stored self.old }
    {
        finish_store(&mut self.context);
    }

    /// Sets the pins that a region drives, and tells whether that woke the VCPU.
    pub fn set_pins(&mut self, row: u8, pins: Pins) -> bool
        requires { row < GUEST_REGIONS }
        ensures answer { result ≡ wakes (with_pins row pins self.old) }
        ensures after { self.new ≡ woken (with_pins row pins self.old) }
    {
        self.pins[row as usize] = pins;
        self.context.pins = joined(&self.pins);
        let wakes = self.state == State::Paused(true)
            && self.context.pins.pending() & self.context.mie != 0;
        if wakes {
            self.state = State::Ready;
        }
        wakes
    }
}

// A context that begins at an address, with all registers 0.
fn started(start: u64, index: u8, pins: Pins) -> Ctx
    ensures { result ≡ started start index pins }
{
    Ctx {
        pc: start,
        x: [0; 32],
        mstatus: 0,
        mie: 0,
        mtvec: 0,
        mscratch: 0,
        mepc: 0,
        mcause: 0,
        mtval: 0,
        hartid: u64::from(index),
        pins,
    }
}

// Each pin is high where some region drives it high.
fn joined(rows: &[Pins]) -> Pins
    ensures { result ≡ joined rows.now }
{
    Pins {
        ext: rows.iter().any(|pins| pins.ext),
        soft: rows.iter().any(|pins| pins.soft),
        timer: rows.iter().any(|pins| pins.timer),
    }
}
