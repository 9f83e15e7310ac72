//! The line control register.

ghost use Rattle.std.specs.Prelude.{⊤, ◌≡◌, [], ◌∷◌, codes};
ghost use Rattle.hv_emu.specs.Registers.{is_set};

use bitflags::{Flag, Flags};

/// The form of a character, which changes nothing here, and the divisor latch access bit.
#[derive(Clone, Copy)]
pub(crate) struct Lcr(u8);

impl Lcr {
    /// Word length select, low bit.
    pub(crate) const WLS0: Lcr = Lcr(0x01);

    /// Word length select, high bit.
    pub(crate) const WLS1: Lcr = Lcr(0x02);

    /// Number of stop bits.
    pub(crate) const STB: Lcr = Lcr(0x04);

    /// Parity enable.
    pub(crate) const PEN: Lcr = Lcr(0x08);

    /// Even parity select.
    pub(crate) const EPS: Lcr = Lcr(0x10);

    /// Stick parity.
    pub(crate) const STICK_PARITY: Lcr = Lcr(0x20);

    /// Set break.
    pub(crate) const SET_BREAK: Lcr = Lcr(0x40);

    /// Divisor latch access bit.
    pub(crate) const DLAB: Lcr = Lcr(0x80);

    const FLAGS: &'static [Flag<Lcr>] = &[
        Flag {
            name: "WLS0",
            value: Lcr::WLS0,
        },
        Flag {
            name: "WLS1",
            value: Lcr::WLS1,
        },
        Flag {
            name: "STB",
            value: Lcr::STB,
        },
        Flag {
            name: "PEN",
            value: Lcr::PEN,
        },
        Flag {
            name: "EPS",
            value: Lcr::EPS,
        },
        Flag {
            name: "STICK_PARITY",
            value: Lcr::STICK_PARITY,
        },
        Flag {
            name: "SET_BREAK",
            value: Lcr::SET_BREAK,
        },
        Flag {
            name: "DLAB",
            value: Lcr::DLAB,
        },
    ];

    pub(crate) fn dlab(self) -> bool
        ensures { result ≡ is_set self.0 7 }
    {
        self.contains(Lcr::DLAB)
    }
}

impl Flags for Lcr {
    type Bits = u8;

    ghost exact = { ⊤ };

    ghost table = { (codes "WLS0", 0x01) ∷ (codes "WLS1", 0x02) ∷ (codes "STB", 0x04) ∷ (codes "PEN", 0x08)
        ∷ (codes "EPS", 0x10) ∷ (codes "STICK_PARITY", 0x20) ∷ (codes "SET_BREAK", 0x40) ∷
        (codes "DLAB", 0x80) ∷ [] };

    ghost set_of = { λ lcr. lcr.0 };

    fn flags<'a>() -> &'a [Flag<Lcr>] {
        Lcr::FLAGS
    }

    fn bits(&self) -> u8 {
        self.0
    }

    fn from_bits_retain(bits: u8) -> Lcr {
        Lcr(bits)
    }
}
