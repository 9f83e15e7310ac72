//! The timer, whose state is what its registers hold.

ghost use Rattle.std.specs.Prelude.{◌≡◌};

use crate::register::{Register, register_at};
use hv_emu::{Emulator, Pins};
use hv_registers::{ContextWords, resize, set_word, word_at};

/// The timer and software interrupts of up to four VCPUs.
///
/// mtime counts ticks modulo 2^64. An access has 4 bytes, or 8 at offsets of at least 0x4000, and
/// begins at a multiple of its size; every other is denied. One of 4 bytes reaches an msip, or
/// either half of an mtimecmp or of mtime. A place with no register reads 0 and isn't written.
#[derive(Drop)]
pub struct Timer {
    // By context.
    msip: ContextWords,
    mtimecmp: ContextWords,
    mtime: u64,
}

impl Timer {
    ghost use Rattle.std.specs.Prelude.{◌≤◌, ◌<◌, ◌^◌};
    ghost use Rattle.hv_emu.specs.Device.{IsInReset, timer};
    ghost use Rattle.hv_emu.specs.Timer as device;
    ghost use Rattle.hv_timer.specs.Meaning.{meaning};
    ghost use Rattle.hv_timer.specs.Registers.{device_register, greatest_size};

    /// A timer in its reset state, without contexts.
    #[tactic(auto, unfolding(hv_emu::specs::Device::after_reset))]
    pub fn new() -> Timer
        ensures state { meaning result ≡ device.timer_reset 0 }
        ensures reset { IsInReset (timer (meaning result)) }
    {
        Timer {
            msip: ContextWords::new(),
            mtimecmp: ContextWords::new(),
            mtime: 0,
        }
    }

    fn contexts(&self) -> u8
        ensures contexts { result ≡ (meaning self.now).contexts }
        ensures few { result ≤ 4 }
    {
        self.msip.len() as u8
    }

    fn set_contexts(&mut self, contexts: u8)
        requires { contexts ≤ 4 }
        ensures { meaning self.new ≡ device.timer_attached (meaning self.old) contexts }
    {
        resize(&mut self.msip, contexts, 0);
        resize(&mut self.mtimecmp, contexts, u64::MAX);
    }

    // The software pin of a context.
    fn software(&self, context: usize) -> bool
        ensures { result ≡ device.software_pin (meaning self.now) context }
    {
        context < self.msip.len() && word_at(self.msip.as_slice(), context) == 1
    }

    // The timer pin of a context.
    fn expired(&self, context: usize) -> bool
        ensures { result ≡ device.timer_pin (meaning self.now) context }
    {
        context < self.msip.len() && self.mtime >= word_at(self.mtimecmp.as_slice(), context)
    }

    fn load(&self, register: Register) -> u64
        ensures { result ≡ device.timer_value (meaning self.now) (device_register register) }
    {
        match register {
            Register::Msip(context) => word_at(self.msip.as_slice(), context),
            Register::Mtimecmp(context, part) => {
                part.value(word_at(self.mtimecmp.as_slice(), context))
            }
            Register::Mtime(part) => part.value(self.mtime),
            Register::Unused => 0,
        }
    }

    fn store(&mut self, register: Register, value: u64)
        requires { value < 256 ^ greatest_size register }
        ensures { meaning self.new
            ≡ device.timer_written (meaning self.old) (device_register register) value }
    {
        match register {
            Register::Msip(context) => set_word(&mut self.msip, context, value % 2),
            Register::Mtimecmp(context, part) => {
                let word = word_at(self.mtimecmp.as_slice(), context);
                set_word(&mut self.mtimecmp, context, part.written(word, value));
            }
            Register::Mtime(part) => self.mtime = part.written(self.mtime, value),
            Register::Unused => (),
        }
    }
}

impl Emulator for Timer {
    ghost use Rattle.hv_emu.specs.Device.{timer};
    ghost use Rattle.hv_timer.specs.Meaning.{meaning};

    ghost state = { λ t. timer (meaning t) };

    #[tactic(auto, unfolding(hv_emu::specs::Device::has_name))]
    fn compatible(&self, name: &[u8]) -> bool {
        name == b"riscv,clint0".as_slice() || name == b"sifive,clint0".as_slice()
    }

    #[tactic(auto, unfolding(hv_emu::specs::Device::after_attach))]
    fn attach(&mut self, vcpus: u8) {
        self.set_contexts(vcpus);
    }

    #[tactic(auto, unfolding(hv_emu::specs::Device::after_reset))]
    fn reset(&mut self) {
        let contexts = self.contexts();
        *self = Timer::new();
        self.set_contexts(contexts);
    }

    #[tactic(auto, unfolding(hv_emu::specs::Device::device_access))]
    fn read(&mut self, offset: u64, size: u8) -> Option<u64> {
        let register = register_at(self.msip.len(), offset, size)?;
        Some(self.load(register))
    }

    #[tactic(auto, unfolding(hv_emu::specs::Device::device_access))]
    fn write(&mut self, offset: u64, size: u8, value: u64) -> bool {
        match register_at(self.msip.len(), offset, size) {
            Some(register) => {
                self.store(register, value);
                true
            }
            None => false,
        }
    }

    #[tactic(auto, unfolding(hv_emu::specs::Device::after_source))]
    fn source(&mut self, _number: u8, _level: bool) {}

    #[tactic(auto, unfolding(hv_emu::specs::Device::line_of))]
    fn line(&self) -> bool {
        false
    }

    #[tactic(auto, unfolding(hv_emu::specs::Device::pins_of))]
    fn pins(&self, vcpu: u8) -> Pins {
        let context = usize::from(vcpu);
        Pins {
            ext: false,
            soft: self.software(context),
            timer: self.expired(context),
        }
    }

    #[tactic(auto, unfolding(hv_emu::specs::Device::is_serial))]
    fn serial(&self) -> bool {
        false
    }

    #[tactic(auto, unfolding(hv_emu::specs::Device::after_feed))]
    fn feed(&mut self, _byte: u8) {}

    #[tactic(auto, unfolding(hv_emu::specs::Device::output_at))]
    fn output_at(&self, _place: usize) -> Option<u8> {
        None
    }

    #[tactic(auto, unfolding(hv_emu::specs::Device::after_tick))]
    fn tick(&mut self) {
        self.mtime = self.mtime.wrapping_add(1);
    }
}
