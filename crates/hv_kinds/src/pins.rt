//! The interrupt pins of a hart.
ghost use Rattle.std.specs.Prelude.{◌≡◌};
ghost use Rattle.hv_kinds.specs.Pins.{pending_bits};

/// The levels of the interrupt pins of a hart, as the Privileged Architecture's mip shows them (3.1.9).
#[derive(Clone, Copy, Debug, PartialEq, Eq, Drop)]
pub struct Pins {
    /// The machine external interrupt, from an interrupt controller.
    pub ext: bool,
    /// The machine software interrupt.
    pub soft: bool,
    /// The machine timer interrupt.
    pub timer: bool,
}

impl Pins {
    /// The bits of mip.
    pub fn pending(self) -> u64
        ensures { result ≡ pending_bits self }
    {
        let soft = if self.soft { 1 << 3 } else { 0 };
        let timer = if self.timer { 1 << 7 } else { 0 };
        let ext = if self.ext { 1 << 11 } else { 0 };
        soft + timer + ext
    }
}
