//! The serial port.

ghost use Rattle.std.specs.Prelude.{◌≡◌, IfOk, option_map};
ghost use Rattle.hv_emu.specs.Device.{DevState, IsInReset, uart};
ghost use Rattle.hv_emu.specs.Uart as device;
ghost use Rattle.hv_emu.specs.Uart.{uart_reset, interrupt_code};
ghost use Rattle.hv_uart.specs.Registers.{register_of, code_of};

use crate::fcr::Fcr;
use crate::ier::Ier;
use crate::interrupt::Interrupt;
use crate::lcr::Lcr;
use crate::lsr::Lsr;
use crate::mcr::Mcr;
use crate::register::Register;
use bitflags::Flags;
use circular_buffer::HeapCircularBuffer;
use hv_emu::{Emulator, Pins};
use std::alloc::{AllocError, Global};
use std::marker::Model;

/// How many received bytes the FIFO has room for.
const FIFO_ROOM: usize = 16;

/// How many received bytes there is room for without the FIFO, in the receiver buffer register.
const BUFFER_ROOM: usize = 1;

/// How many of the bytes that were sent are kept.
const OUTPUT_ROOM: usize = 4096;

/// Bits 7 and 6 of the interrupt identification register, which are set where the FIFOs are on.
const IIR_FIFOS_ENABLED: u8 = 0xc0;

/// The trigger level without the FIFO, in bytes.
const LEAST_TRIGGER: u8 = 1;

/// A serial port, which contracts see as the state of the device.
#[derive(Drop)]
pub struct Uart {
    contexts: u8,
    /// Interrupt enable register.
    ier: Ier,
    /// Whether the FIFOs are on.
    fifo: bool,
    /// The trigger level, in bytes.
    trigger: u8,
    /// Line control register.
    lcr: Lcr,
    /// Modem control register.
    mcr: Mcr,
    /// Scratch register.
    scr: u8,
    /// Divisor latch, low byte.
    dll: u8,
    /// Divisor latch, high byte.
    dlm: u8,
    /// The received bytes, the oldest first.
    input: HeapCircularBuffer<u8>,
    overrun: bool,
    /// Whether the interrupt of the empty transmitter holding register is pending.
    thre: bool,
    /// The bytes that were sent last, the oldest first.
    output: HeapCircularBuffer<u8>,
    /// How many bytes were sent, modulo 2^64.
    sent: u64,
}

impl Model for Uart {
    ghost use Rattle.hv_emu.specs.Uart.{UartState};

    ghost Value = { UartState };

    ghost use Rattle.hv_uart.specs.State.{state_of, HasRoom};

    ghost view = { state_of };

    ghost invariant = { HasRoom };
}

impl Uart {
    /// A serial port in its reset state, with no context. The one call that takes memory.
    #[tactic(auto, unfolding(hv_emu::specs::Device::after_reset))]
    pub fn new(alloc: Global) -> Result<Uart, AllocError>
        ensures state { IfOk result (λ port. port ≡ uart_reset 0) }
        ensures reset { IfOk result (λ port. IsInReset (uart port)) }
    {
        let input = HeapCircularBuffer::with_capacity(alloc, FIFO_ROOM)?;
        let output = HeapCircularBuffer::with_capacity(alloc, OUTPUT_ROOM)?;
        Ok(Uart {
            contexts: 0,
            ier: Ier::empty(),
            fifo: false,
            trigger: LEAST_TRIGGER,
            lcr: Lcr::empty(),
            mcr: Mcr::empty(),
            scr: 0,
            dll: 0,
            dlm: 0,
            input,
            overrun: false,
            thre: false,
            output,
            sent: 0,
        })
    }

    /// How many bytes were sent since the last reset, modulo 2^64.
    pub fn sent(&self) -> u64
        ensures { result ≡ self.now.sent }
    {
        self.sent
    }

    /// The register that an access reaches: only single bytes are accessed.
    fn register(&self, offset: u64, size: u8) -> Option<Register>
        ensures { option_map register_of result ≡ device.uart_register_of self.now offset size }
    {
        if size == 1 {
            Register::at(self.lcr.dlab(), offset)
        } else {
            None
        }
    }

    /// The pending interrupt of the highest priority among those that are enabled.
    fn interrupt(&self) -> Interrupt
        ensures { code_of result ≡ interrupt_code self.now }
    {
        if self.ier.enables_line_status() && self.overrun {
            Interrupt::ReceiverLineStatus
        } else if self.ier.enables_received_data()
            && self.input.len() >= usize::from(self.trigger)
        {
            Interrupt::ReceivedDataAvailable
        } else if self.ier.enables_received_data() && self.fifo && !self.input.is_empty() {
            Interrupt::CharacterTimeOut
        } else if self.ier.enables_transmitter_empty() && self.thre {
            Interrupt::TransmitterHoldingRegisterEmpty
        } else {
            Interrupt::None
        }
    }

    /// The interrupt identification register.
    fn iir(&self) -> u8
        ensures { result ≡ device.iir_value self.now }
    {
        let fifos = if self.fifo { IIR_FIFOS_ENABLED } else { 0 };
        self.interrupt().code() + fifos
    }

    /// The line status register.
    fn lsr(&self) -> Lsr
        ensures { result.0 ≡ device.lsr_value self.now }
    {
        Lsr::of(!self.input.is_empty(), self.overrun)
    }

    /// What a read of a register answers.
    fn value(&self, register: Register) -> u8
        ensures { result ≡ device.uart_value self.now (register_of register) }
    {
        match register {
            Register::RbrThr => self.input.front().copied().unwrap_or(0),
            Register::Ier => self.ier.bits(),
            Register::IirFcr => self.iir(),
            Register::Lcr => self.lcr.bits(),
            Register::Mcr => self.mcr.bits(),
            Register::Lsr => self.lsr().bits(),
            Register::Msr => 0,
            Register::Scr => self.scr,
            Register::Dll => self.dll,
            Register::Dlm => self.dlm,
        }
    }

    /// Leaves what a read of a register leaves.
    fn end_read(&mut self, register: Register)
        ensures { self.new ≡ device.uart_after_read self.old (register_of register) }
    {
        match register {
            Register::RbrThr => self.take_received(),
            Register::IirFcr => self.end_thre(),
            Register::Lsr => self.overrun = false,
            _ => {}
        }
    }

    /// The oldest received byte is gone.
    fn take_received(&mut self)
        ensures { self.new ≡ device.uart_after_read self.old device.rbr_thr }
    {
        let _read = self.input.pop_front();
    }

    /// The interrupt of the transmitter holding register ends where it is the one that IIR shows.
    fn end_thre(&mut self)
        ensures { self.new ≡ device.uart_after_read self.old device.iir_fcr }
    {
        if self.interrupt() == Interrupt::TransmitterHoldingRegisterEmpty {
            self.thre = false;
        }
    }

    /// Writes a register.
    fn put(&mut self, register: Register, value: u8)
        ensures { self.new ≡ device.uart_written self.old (register_of register) value }
    {
        match register {
            Register::RbrThr => self.send(value),
            Register::Ier => self.put_ier(value),
            Register::IirFcr => self.put_fcr(Fcr::from_bits_retain(value)),
            Register::Lcr => self.lcr = Lcr::from_bits_retain(value),
            Register::Mcr => self.mcr = Mcr::written(value),
            Register::Lsr | Register::Msr => {}
            Register::Scr => self.scr = value,
            Register::Dll => self.dll = value,
            Register::Dlm => self.dlm = value,
        }
    }

    /// Sends a byte, after which the transmitter holding register is empty again.
    fn send(&mut self, byte: u8)
        ensures { self.new ≡ device.uart_sent self.old byte }
    {
        let _oldest = self.output.push_back(byte);
        self.sent = self.sent.wrapping_add(1);
        self.thre = true;
    }

    fn put_ier(&mut self, value: u8)
        ensures { self.new ≡ device.uart_with_ier self.old value }
    {
        let enabled = self.ier.enables_transmitter_empty();
        self.ier = Ier::written(value);
        if !enabled && Ier::from_bits_retain(value).enables_transmitter_empty() {
            self.thre = true;
        }
    }

    fn put_fcr(&mut self, control: Fcr)
        ensures { self.new ≡ device.uart_with_fcr self.old control.0 }
    {
        let enabled = control.enables_fifos();
        if enabled != self.fifo || (enabled && control.resets_receiver()) {
            self.input.clear();
        }
        self.fifo = enabled;
        self.trigger = if enabled {
            control.trigger()
        } else {
            LEAST_TRIGGER
        };
    }

    /// Takes in a received byte.
    fn receive(&mut self, byte: u8)
        ensures { self.new ≡ device.uart_fed self.old byte }
    {
        let room = if self.fifo { FIFO_ROOM } else { BUFFER_ROOM };
        if self.input.len() < room {
            let _none = self.input.push_back(byte);
            return;
        }
        self.overrun = true;
        if !self.fifo {
            self.input.clear();
            let _none = self.input.push_back(byte);
        }
    }
}

impl Emulator for Uart {
    ghost state = { DevState.uart };

    #[tactic(auto, unfolding(hv_emu::specs::Device::has_name))]
    fn compatible(&self, name: &[u8]) -> bool {
        name == b"ns16550".as_slice() || name == b"ns16550a".as_slice()
    }

    #[tactic(auto, unfolding(hv_emu::specs::Device::after_attach))]
    fn attach(&mut self, vcpus: u8) {
        self.contexts = vcpus;
    }

    #[tactic(auto, unfolding(hv_emu::specs::Device::after_reset))]
    fn reset(&mut self) {
        self.ier = Ier::empty();
        self.fifo = false;
        self.trigger = LEAST_TRIGGER;
        self.lcr = Lcr::empty();
        self.mcr = Mcr::empty();
        self.scr = 0;
        self.dll = 0;
        self.dlm = 0;
        self.input.clear();
        self.overrun = false;
        self.thre = false;
        self.output.clear();
        self.sent = 0;
    }

    #[tactic(auto, unfolding(hv_emu::specs::Device::device_access))]
    fn read(&mut self, offset: u64, size: u8) -> Option<u64> {
        let register = self.register(offset, size)?;
        let value = self.value(register);
        self.end_read(register);
        Some(u64::from(value))
    }

    #[tactic(auto, unfolding(hv_emu::specs::Device::device_access))]
    fn write(&mut self, offset: u64, size: u8, value: u64) -> bool {
        match self.register(offset, size) {
            Some(register) => {
                self.put(register, value as u8);
                true
            }
            None => false,
        }
    }

    #[tactic(auto, unfolding(hv_emu::specs::Device::after_source))]
    fn source(&mut self, _number: u8, _level: bool) {}

    #[tactic(auto, unfolding(hv_emu::specs::Device::line_of))]
    fn line(&self) -> bool {
        self.interrupt() != Interrupt::None
    }

    #[tactic(auto, unfolding(hv_emu::specs::Device::pins_of))]
    fn pins(&self, _vcpu: u8) -> Pins {
        Pins {
            ext: false,
            soft: false,
            timer: false,
        }
    }

    #[tactic(auto, unfolding(hv_emu::specs::Device::is_serial))]
    fn serial(&self) -> bool {
        true
    }

    #[tactic(auto, unfolding(hv_emu::specs::Device::after_feed))]
    fn feed(&mut self, byte: u8) {
        self.receive(byte);
    }

    #[tactic(auto, unfolding(hv_emu::specs::Device::output_at))]
    fn output_at(&self, place: usize) -> Option<u8> {
        self.output.get(place).copied()
    }

    #[tactic(auto, unfolding(hv_emu::specs::Device::after_tick))]
    fn tick(&mut self) {}
}
