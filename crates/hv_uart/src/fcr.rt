//! The FIFO control register, which is written alone.

ghost use Rattle.std.specs.Prelude.{⊤, ◌≡◌, [], ◌∷◌, codes};
ghost use Rattle.hv_emu.specs.Registers.{is_set};
ghost use Rattle.hv_emu.specs.Uart.{trigger_of};

use bitflags::{Flag, Flags};

/// What is written to the FIFO control register.
#[derive(Clone, Copy)]
pub(crate) struct Fcr(u8);

impl Fcr {
    /// Turns the FIFOs on.
    pub(crate) const FIFO_ENABLE: Fcr = Fcr(0x01);

    /// Empties the receiver FIFO.
    pub(crate) const RCVR_FIFO_RESET: Fcr = Fcr(0x02);

    /// Empties the transmitter FIFO, which is always empty here.
    pub(crate) const XMIT_FIFO_RESET: Fcr = Fcr(0x04);

    /// Selects the mode of pins that are not there.
    pub(crate) const DMA_MODE_SELECT: Fcr = Fcr(0x08);

    /// The low bit of the trigger level of the receiver FIFO.
    pub(crate) const RCVR_TRIGGER_LSB: Fcr = Fcr(0x40);

    /// The high bit of the trigger level of the receiver FIFO.
    pub(crate) const RCVR_TRIGGER_MSB: Fcr = Fcr(0x80);

    const FLAGS: &'static [Flag<Fcr>] = &[
        Flag {
            name: "FIFO_ENABLE",
            value: Fcr::FIFO_ENABLE,
        },
        Flag {
            name: "RCVR_FIFO_RESET",
            value: Fcr::RCVR_FIFO_RESET,
        },
        Flag {
            name: "XMIT_FIFO_RESET",
            value: Fcr::XMIT_FIFO_RESET,
        },
        Flag {
            name: "DMA_MODE_SELECT",
            value: Fcr::DMA_MODE_SELECT,
        },
        Flag {
            name: "RCVR_TRIGGER_LSB",
            value: Fcr::RCVR_TRIGGER_LSB,
        },
        Flag {
            name: "RCVR_TRIGGER_MSB",
            value: Fcr::RCVR_TRIGGER_MSB,
        },
    ];

    pub(crate) fn enables_fifos(self) -> bool
        ensures { result ≡ is_set self.0 0 }
    {
        self.contains(Fcr::FIFO_ENABLE)
    }

    pub(crate) fn resets_receiver(self) -> bool
        ensures { result ≡ is_set self.0 1 }
    {
        self.contains(Fcr::RCVR_FIFO_RESET)
    }

    /// The trigger level of the receiver FIFO, in bytes.
    pub(crate) fn trigger(self) -> u8
        ensures { result ≡ trigger_of self.0 }
    {
        let high = self.contains(Fcr::RCVR_TRIGGER_MSB);
        let low = self.contains(Fcr::RCVR_TRIGGER_LSB);
        match (high, low) {
            (false, false) => 1,
            (false, true) => 4,
            (true, false) => 8,
            (true, true) => 14,
        }
    }
}

impl Flags for Fcr {
    type Bits = u8;

    ghost exact = { ⊤ };

    ghost table = { (codes "FIFO_ENABLE", 0x01) ∷ (codes "RCVR_FIFO_RESET", 0x02) ∷
        (codes "XMIT_FIFO_RESET", 0x04) ∷ (codes "DMA_MODE_SELECT", 0x08) ∷
        (codes "RCVR_TRIGGER_LSB", 0x40) ∷ (codes "RCVR_TRIGGER_MSB", 0x80) ∷ [] };

    ghost set_of = { λ fcr. fcr.0 };

    fn flags<'a>() -> &'a [Flag<Fcr>] {
        Fcr::FLAGS
    }

    fn bits(&self) -> u8 {
        self.0
    }

    fn from_bits_retain(bits: u8) -> Fcr {
        Fcr(bits)
    }
}
