//! The modem control register.

ghost use Rattle.std.specs.Prelude.{⊤, ◌≡◌, ◌%◌, [], ◌∷◌, codes};

use bitflags::{Flag, Flags};

/// The modem outputs, which lead nowhere here.
#[derive(Clone, Copy)]
pub(crate) struct Mcr(u8);

impl Mcr {
    /// Data terminal ready.
    pub(crate) const DTR: Mcr = Mcr(0x01);

    /// Request to send.
    pub(crate) const RTS: Mcr = Mcr(0x02);

    /// Output 1.
    pub(crate) const OUT1: Mcr = Mcr(0x04);

    /// Output 2.
    pub(crate) const OUT2: Mcr = Mcr(0x08);

    /// Loopback, which has no effect here.
    pub(crate) const LOOP: Mcr = Mcr(0x10);

    const FLAGS: &'static [Flag<Mcr>] = &[
        Flag {
            name: "DTR",
            value: Mcr::DTR,
        },
        Flag {
            name: "RTS",
            value: Mcr::RTS,
        },
        Flag {
            name: "OUT1",
            value: Mcr::OUT1,
        },
        Flag {
            name: "OUT2",
            value: Mcr::OUT2,
        },
        Flag {
            name: "LOOP",
            value: Mcr::LOOP,
        },
    ];

    /// The register after a write, which keeps the five bits that have a meaning.
    pub(crate) fn written(value: u8) -> Mcr
        ensures { result.0 ≡ value % 32 }
    {
        Mcr::from_bits_truncate(value)
    }
}

impl Flags for Mcr {
    type Bits = u8;

    ghost exact = { ⊤ };

    ghost table = { (codes "DTR", 0x01) ∷ (codes "RTS", 0x02) ∷ (codes "OUT1", 0x04) ∷ (codes "OUT2", 0x08)
        ∷ (codes "LOOP", 0x10) ∷ [] };

    ghost set_of = { λ mcr. mcr.0 };

    fn flags<'a>() -> &'a [Flag<Mcr>] {
        Mcr::FLAGS
    }

    fn bits(&self) -> u8 {
        self.0
    }

    fn from_bits_retain(bits: u8) -> Mcr {
        Mcr(bits)
    }
}
