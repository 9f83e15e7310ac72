//! The controller, whose state is what its registers hold, and the levels of its sources.

ghost use Rattle.std.specs.Prelude.{◌≡◌};

use crate::bits::{is_set, with_bit, without_bit};
use crate::register::{Register, SOURCES, register_at};
use hv_emu::{Emulator, Pins};
use hv_registers::{ContextWords, resize, set_word, word_at};

/// The platform-level interrupt controller of up to four VCPUs, with the sources 1 to 31.
#[derive(Drop)]
pub struct Plic {
    // By the number of the source; that of 0 stays 0.
    priority: [u64; 32],
    // Sets of sources.
    level: u64,
    pending: u64,
    service: u64,
    // By context.
    enable: ContextWords,
    threshold: ContextWords,
}

impl Plic {
    ghost use Rattle.std.specs.Prelude.{◌≤◌, ◌<◌};
    ghost use Rattle.hv_emu.specs.Device.{IsInReset, plic};
    ghost use Rattle.hv_emu.specs.Plic as map;
    ghost use Rattle.hv_emu.specs.Plic.{candidates, claimed, greatest_priority};
    ghost use Rattle.hv_plic.specs.Meaning.{meaning};
    ghost use Rattle.hv_plic.specs.Registers.{meaning_of};

    /// A controller in its reset state, without contexts.
    #[tactic(auto, unfolding(hv_emu::specs::Device::after_reset))]
    pub fn new() -> Plic
        ensures state { meaning result ≡ map.plic_reset 0 }
        ensures reset { IsInReset (plic (meaning result)) }
    {
        Plic {
            priority: [0; 32],
            level: 0,
            pending: 0,
            service: 0,
            enable: ContextWords::new(),
            threshold: ContextWords::new(),
        }
    }

    fn contexts(&self) -> u8
        ensures contexts { result ≡ (meaning self.now).contexts }
        ensures few { result ≤ 4 }
    {
        self.enable.len() as u8
    }

    fn set_contexts(&mut self, contexts: u8)
        requires { contexts ≤ 4 }
        ensures { meaning self.new ≡ map.plic_attached (meaning self.old) contexts }
    {
        resize(&mut self.enable, contexts, 0);
        resize(&mut self.threshold, contexts, 0);
    }

    fn is_candidate(&self, context: usize, source: u8) -> bool
        requires { source < 32 }
        ensures { result ≡ map.is_candidate (meaning self.now) context source }
    {
        is_set(self.pending, source)
            && is_set(word_at(self.enable.as_slice(), context), source)
            && self.priority[usize::from(source)] > 0
    }

    // The source that a claim takes, with its priority, or 0 and 0 without candidates.
    fn best(&self, context: usize) -> (u8, u64)
        ensures source { result.0 ≡ claimed (meaning self.now) context }
        ensures priority { result.1
            ≡ greatest_priority (meaning self.now) (candidates (meaning self.now) context) }
        ensures few { result.0 < 32 }
    {
        let mut best = 0;
        let mut greatest = 0;
        for source in 1..SOURCES as u8 {
            let priority = self.priority[usize::from(source)];
            if self.is_candidate(context, source) && priority > greatest {
                best = source;
                greatest = priority;
            }
        }
        (best, greatest)
    }

    // The external pin of a context.
    fn external(&self, context: usize) -> bool
        ensures { result ≡ map.plic_pin (meaning self.now) context }
    {
        let (_, greatest) = self.best(context);
        context < self.enable.len() && greatest > word_at(self.threshold.as_slice(), context)
    }

    fn claim(&mut self, context: usize) -> u64
        ensures source { result ≡ claimed (meaning self.old) context }
        ensures left { meaning self.new
            ≡ map.plic_after_claim (meaning self.old) (claimed (meaning self.old) context) }
    {
        let (source, _) = self.best(context);
        if source != 0 {
            self.pending = without_bit(self.pending, source);
            self.service = with_bit(self.service, source);
        }
        u64::from(source)
    }

    fn complete(&mut self, context: usize, source: u64)
        ensures { meaning self.new ≡ map.plic_completed (meaning self.old) context source }
    {
        if source == 0 || source >= SOURCES as u64 {
            return;
        }
        let source = source as u8;
        if !is_set(word_at(self.enable.as_slice(), context), source) {
            return;
        }
        if is_set(self.service, source) && is_set(self.level, source) {
            self.pending = with_bit(self.pending, source);
        }
        self.service = without_bit(self.service, source);
    }

    fn signal(&mut self, source: u8, level: bool)
        ensures { meaning self.new ≡ map.plic_signalled (meaning self.old) source level }
    {
        if source == 0 || usize::from(source) >= SOURCES {
            return;
        }
        if level && !is_set(self.service, source) {
            self.pending = with_bit(self.pending, source);
        }
        self.level = if level {
            with_bit(self.level, source)
        } else {
            without_bit(self.level, source)
        };
    }

    fn load(&mut self, register: Register) -> u64
        ensures value { result ≡ map.plic_value (meaning self.old) (meaning_of register) }
        ensures left { meaning self.new
            ≡ map.plic_after_read (meaning self.old) (meaning_of register) }
    {
        match register {
            Register::Priority(source) => word_at(&self.priority, source),
            Register::Pending => self.pending,
            Register::Enable(context) => word_at(self.enable.as_slice(), context),
            Register::Threshold(context) => word_at(self.threshold.as_slice(), context),
            Register::ClaimComplete(context) => self.claim(context),
            Register::Reserved => 0,
        }
    }

    fn store(&mut self, register: Register, value: u64)
        ensures { meaning self.new
            ≡ map.plic_written (meaning self.old) (meaning_of register) value }
    {
        match register {
            Register::Priority(source) => {
                if source < SOURCES {
                    self.priority[source] = value % 8;
                }
            }
            Register::Enable(context) => set_word(&mut self.enable, context, value - value % 2),
            Register::Threshold(context) => set_word(&mut self.threshold, context, value % 8),
            Register::ClaimComplete(context) => self.complete(context, value),
            Register::Pending => (),
            Register::Reserved => (),
        }
    }
}

impl Emulator for Plic {
    ghost use Rattle.hv_emu.specs.Device.{plic};
    ghost use Rattle.hv_plic.specs.Meaning.{meaning};

    ghost state = { λ p. plic (meaning p) };

    #[tactic(auto, unfolding(hv_emu::specs::Device::has_name))]
    fn compatible(&self, name: &[u8]) -> bool {
        name == b"riscv,plic0".as_slice() || name == b"sifive,plic-1.0.0".as_slice()
    }

    #[tactic(auto, unfolding(hv_emu::specs::Device::after_attach))]
    fn attach(&mut self, vcpus: u8) {
        self.set_contexts(vcpus);
    }

    #[tactic(auto, unfolding(hv_emu::specs::Device::after_reset))]
    fn reset(&mut self) {
        let contexts = self.contexts();
        *self = Plic::new();
        self.set_contexts(contexts);
    }

    #[tactic(auto, unfolding(hv_emu::specs::Device::device_access))]
    fn read(&mut self, offset: u64, size: u8) -> Option<u64> {
        let register = register_at(self.enable.len(), offset, size)?;
        Some(self.load(register))
    }

    #[tactic(auto, unfolding(hv_emu::specs::Device::device_access))]
    fn write(&mut self, offset: u64, size: u8, value: u64) -> bool {
        match register_at(self.enable.len(), offset, size) {
            Some(register) => {
                self.store(register, value);
                true
            }
            None => false,
        }
    }

    #[tactic(auto, unfolding(hv_emu::specs::Device::after_source))]
    fn source(&mut self, number: u8, level: bool) {
        self.signal(number, level);
    }

    #[tactic(auto, unfolding(hv_emu::specs::Device::line_of))]
    fn line(&self) -> bool {
        false
    }

    #[tactic(auto, unfolding(hv_emu::specs::Device::pins_of))]
    fn pins(&self, vcpu: u8) -> Pins {
        Pins {
            ext: self.external(usize::from(vcpu)),
            soft: false,
            timer: false,
        }
    }

    #[tactic(auto, unfolding(hv_emu::specs::Device::is_serial))]
    fn serial(&self) -> bool {
        false
    }

    #[tactic(auto, unfolding(hv_emu::specs::Device::after_feed))]
    fn feed(&mut self, _byte: u8) {}

    #[tactic(auto, unfolding(hv_emu::specs::Device::output_at))]
    fn output_at(&self, _place: usize) -> Option<u8> {
        None
    }

    #[tactic(auto, unfolding(hv_emu::specs::Device::after_tick))]
    fn tick(&mut self) {}
}
