//! The line status register, which is read alone.

ghost use Rattle.std.specs.Prelude.{⊤, ◌≡◌, ◌+◌, if◌then◌else◌, [], ◌∷◌, codes};

use bitflags::{Flag, Flags};

/// The state of the receiver and the transmitter.
#[derive(Clone, Copy)]
pub(crate) struct Lsr(u8);

impl Lsr {
    /// Data ready: a received byte waits.
    pub(crate) const DR: Lsr = Lsr(0x01);

    /// Overrun error: a received byte found no room.
    pub(crate) const OE: Lsr = Lsr(0x02);

    /// Parity error, of which there is none here.
    pub(crate) const PE: Lsr = Lsr(0x04);

    /// Framing error, of which there is none here.
    pub(crate) const FE: Lsr = Lsr(0x08);

    /// Break interrupt, of which there is none here.
    pub(crate) const BI: Lsr = Lsr(0x10);

    /// Transmitter holding register empty, as always.
    pub(crate) const THRE: Lsr = Lsr(0x20);

    /// Transmitter empty, as always.
    pub(crate) const TEMT: Lsr = Lsr(0x40);

    /// Error in the receiver FIFO, of which there is none here.
    pub(crate) const RCVR_FIFO_ERROR: Lsr = Lsr(0x80);

    const FLAGS: &'static [Flag<Lsr>] = &[
        Flag {
            name: "DR",
            value: Lsr::DR,
        },
        Flag {
            name: "OE",
            value: Lsr::OE,
        },
        Flag {
            name: "PE",
            value: Lsr::PE,
        },
        Flag {
            name: "FE",
            value: Lsr::FE,
        },
        Flag {
            name: "BI",
            value: Lsr::BI,
        },
        Flag {
            name: "THRE",
            value: Lsr::THRE,
        },
        Flag {
            name: "TEMT",
            value: Lsr::TEMT,
        },
        Flag {
            name: "RCVR_FIFO_ERROR",
            value: Lsr::RCVR_FIFO_ERROR,
        },
    ];

    /// The status, by whether a received byte waits and whether one found no room.
    pub(crate) fn of(waits: bool, overrun: bool) -> Lsr
        ensures { result.0 ≡ 0x60 + (if waits then 1 else 0) + (if overrun then 2 else 0) }
    {
        let mut status = Lsr::THRE.union(Lsr::TEMT);
        status.set(Lsr::DR, waits);
        status.set(Lsr::OE, overrun);
        status
    }
}

impl Flags for Lsr {
    type Bits = u8;

    ghost exact = { ⊤ };

    ghost table = { (codes "DR", 0x01) ∷ (codes "OE", 0x02) ∷ (codes "PE", 0x04) ∷ (codes "FE", 0x08) ∷
        (codes "BI", 0x10) ∷ (codes "THRE", 0x20) ∷ (codes "TEMT", 0x40) ∷
        (codes "RCVR_FIFO_ERROR", 0x80) ∷ [] };

    ghost set_of = { λ lsr. lsr.0 };

    fn flags<'a>() -> &'a [Flag<Lsr>] {
        Lsr::FLAGS
    }

    fn bits(&self) -> u8 {
        self.0
    }

    fn from_bits_retain(bits: u8) -> Lsr {
        Lsr(bits)
    }
}
