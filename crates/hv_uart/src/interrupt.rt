//! The interrupts, by which the interrupt identification register tells them apart.

ghost use Rattle.std.specs.Prelude.{◌≡◌, ◌<◌};
ghost use Rattle.hv_uart.specs.Registers.{code_of};

/// An interrupt, those of higher priority first.
#[derive(Clone, Copy, PartialEq, Eq)]
pub(crate) enum Interrupt {
    ReceiverLineStatus,
    ReceivedDataAvailable,
    CharacterTimeOut,
    TransmitterHoldingRegisterEmpty,
    /// No interrupt is pending.
    None,
}

impl Interrupt {
    /// The code in bits 3 to 0 of the interrupt identification register.
    pub(crate) fn code(self) -> u8
        ensures code { result ≡ code_of self }
        ensures four_bits { result < 16 }
    {
        match self {
            Interrupt::ReceiverLineStatus => 0x6,
            Interrupt::ReceivedDataAvailable => 0x4,
            Interrupt::CharacterTimeOut => 0xc,
            Interrupt::TransmitterHoldingRegisterEmpty => 0x2,
            Interrupt::None => 0x1,
        }
    }
}
