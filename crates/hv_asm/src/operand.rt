//! The operands of a line.

/// An operand, by what is printed for it.
#[derive(Clone, Copy, Drop)]
pub enum Operand {
    /// The name of a register.
    Register(u8),
    /// A number in decimal.
    Decimal(i64),
    /// A number in hexadecimal.
    Hexadecimal(u32),
    /// An offset from a register.
    Based(i64, u8),
}

/// The operands of a line, which are three at most.
#[derive(Clone, Copy, Drop)]
pub enum Operands {
    Nothing,
    One(Operand),
    Two(Operand, Operand),
    Three(Operand, Operand, Operand),
}
