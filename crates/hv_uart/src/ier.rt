//! The interrupt enable register.

ghost use Rattle.std.specs.Prelude.{⊤, ◌≡◌, ◌%◌, [], ◌∷◌, codes};
ghost use Rattle.hv_emu.specs.Registers.{is_set};

use bitflags::{Flag, Flags};

/// Which interrupts are enabled.
#[derive(Clone, Copy)]
pub(crate) struct Ier(u8);

impl Ier {
    /// Enables the interrupts of received data: data available, and character time-out.
    pub(crate) const ERBFI: Ier = Ier(0x01);

    /// Enables the interrupt of the empty transmitter holding register.
    pub(crate) const ETBEI: Ier = Ier(0x02);

    /// Enables the interrupt of the receiver line status.
    pub(crate) const ELSI: Ier = Ier(0x04);

    /// Enables the interrupt of the modem status, which has none here.
    pub(crate) const EDSSI: Ier = Ier(0x08);

    const FLAGS: &'static [Flag<Ier>] = &[
        Flag {
            name: "ERBFI",
            value: Ier::ERBFI,
        },
        Flag {
            name: "ETBEI",
            value: Ier::ETBEI,
        },
        Flag {
            name: "ELSI",
            value: Ier::ELSI,
        },
        Flag {
            name: "EDSSI",
            value: Ier::EDSSI,
        },
    ];

    /// The register after a write, which keeps the four bits that have a meaning.
    pub(crate) fn written(value: u8) -> Ier
        ensures { result.0 ≡ value % 16 }
    {
        Ier::from_bits_truncate(value)
    }

    pub(crate) fn enables_received_data(self) -> bool
        ensures { result ≡ is_set self.0 0 }
    {
        self.contains(Ier::ERBFI)
    }

    pub(crate) fn enables_transmitter_empty(self) -> bool
        ensures { result ≡ is_set self.0 1 }
    {
        self.contains(Ier::ETBEI)
    }

    pub(crate) fn enables_line_status(self) -> bool
        ensures { result ≡ is_set self.0 2 }
    {
        self.contains(Ier::ELSI)
    }
}

impl Flags for Ier {
    type Bits = u8;

    ghost exact = { ⊤ };

    ghost table = { (codes "ERBFI", 0x01) ∷ (codes "ETBEI", 0x02) ∷ (codes "ELSI", 0x04) ∷
        (codes "EDSSI", 0x08) ∷ [] };

    ghost set_of = { λ ier. ier.0 };

    fn flags<'a>() -> &'a [Flag<Ier>] {
        Ier::FLAGS
    }

    fn bits(&self) -> u8 {
        self.0
    }

    fn from_bits_retain(bits: u8) -> Ier {
        Ier(bits)
    }
}
