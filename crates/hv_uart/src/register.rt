//! The registers by their offsets.

ghost use Rattle.std.specs.Prelude.{◌≡◌, option_map};
ghost use Rattle.hv_emu.specs.Uart.{uart_register};
ghost use Rattle.hv_uart.specs.Registers.{register_of};

/// A register: two names where a read reaches another register than a write.
#[derive(Clone, Copy)]
pub(crate) enum Register {
    /// Receiver buffer, transmitter holding register.
    RbrThr,
    /// Interrupt enable.
    Ier,
    /// Interrupt identification, FIFO control.
    IirFcr,
    /// Line control.
    Lcr,
    /// Modem control.
    Mcr,
    /// Line status.
    Lsr,
    /// Modem status.
    Msr,
    /// Scratch.
    Scr,
    /// Divisor latch, low byte.
    Dll,
    /// Divisor latch, high byte.
    Dlm,
}

impl Register {
    /// The register at an offset, where the divisor latch is at 0 and 1 if its access bit is set.
    pub(crate) fn at(dlab: bool, offset: u64) -> Option<Register>
        ensures { option_map register_of result ≡ uart_register dlab offset }
    {
        match offset {
            0 => Some(if dlab {
                Register::Dll
            } else {
                Register::RbrThr
            }),
            1 => Some(if dlab { Register::Dlm } else { Register::Ier }),
            2 => Some(Register::IirFcr),
            3 => Some(Register::Lcr),
            4 => Some(Register::Mcr),
            5 => Some(Register::Lsr),
            6 => Some(Register::Msr),
            7 => Some(Register::Scr),
            _ => None,
        }
    }
}
