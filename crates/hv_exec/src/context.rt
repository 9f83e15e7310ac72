//! The context of a hart: its registers, its control and status registers, and its pins.

ghost use Rattle.std.specs.Prelude.{◌≡◌, ℕ, ◌+◌, ◌*◌, ◌%◌, ◌^◌, ◌<◌, if◌then◌else◌};
ghost use Rattle.hv_exec.specs.Context.{register_of, with_register, advanced};

use hv_kinds::Pins;

/// What a hart holds between two instructions.
#[derive(Clone, Copy, Drop)]
pub struct Ctx {
    pub pc: u64,
    /// Element 0 is never read.
    pub x: [u64; 32],
    pub mstatus: u64,
    pub mie: u64,
    pub mtvec: u64,
    pub mscratch: u64,
    pub mepc: u64,
    pub mcause: u64,
    pub mtval: u64,
    pub hartid: u64,
    pub pins: Pins,
}

/// What is left to do after an instruction.
#[derive(Clone, Copy, Debug, PartialEq, Eq, Drop)]
pub enum After {
    Done,
    /// Load `size` bytes from `addr`, which may be misaligned, then call `finish_load`.
    Load {
        addr: u64,
        size: u8,
        signed: bool,
        rd: u8,
    },
    /// Store the lowest `size` bytes of `value` at `addr`, which may be misaligned, then call
    /// `finish_store`.
    Store {
        addr: u64,
        size: u8,
        value: u64,
    },
    Trap {
        cause: u64,
        value: u64,
    },
    /// The hart waits for an interrupt.
    Wait,
    /// The instruction is one that `system` carries out.
    System,
}

impl Ctx {
    /// The value of a register, which is 0 for x0.
    pub fn register(&self, number: u8) -> u64
        requires { number < 32 }
        ensures { result ≡ register_of self.now number }
    {
        if number == 0 {
            0
        } else {
            self.x[number as usize]
        }
    }

    /// Writes a register, save x0.
    pub fn set_register(&mut self, number: u8, value: u64)
        requires { number < 32 }
        ensures { self.new ≡ with_register self.old number value }
    {
        if number != 0 {
            self.x[number as usize] = value;
        }
    }

    /// Goes on to the next instruction.
    pub fn advance(&mut self)
        ensures { self.new ≡ advanced self.old }
    {
        self.pc = self.pc.wrapping_add(4);
    }
}
