//! Results of 32 bits from two words of 32 bits, and the extension of a short word to 64 bits.

ghost use Rattle.std.specs.Prelude.{◌≡◌, ℕ, ◌+◌, ◌-◌, ◌*◌, ◌/◌, ◌%◌, ◌^◌, ◌<◌, ◌≤◌, ◌⊎◌};
ghost use Rattle.hv_exec.specs.Numbers.{sign_extended};
ghost use Rattle.hv_exec.specs.Arithmetic.{sum, difference, product, shifted_left, shifted_right, shifted_right_signed, quotient, remainder, quotient_unsigned, remainder_unsigned};

// The lowest 32 bits.
pub(crate) fn low_word(a: u64) -> u32
    ensures { result ≡ a % 2 ^ 32 }
{
    (a % (1 << 32)) as u32
}

pub(crate) fn sign_extend_byte(a: u8) -> u64
    ensures { result ≡ sign_extended 8 a }
{
    i64::from(a.cast_signed()).cast_unsigned()
}

pub(crate) fn sign_extend_half(a: u16) -> u64
    ensures { result ≡ sign_extended 16 a }
{
    i64::from(a.cast_signed()).cast_unsigned()
}

pub(crate) fn sign_extend_word(a: u32) -> u64
    ensures { result ≡ sign_extended 32 a }
{
    i64::from(a.cast_signed()).cast_unsigned()
}

pub(crate) fn add(a: u32, b: u32) -> u32
    ensures { result ≡ sum 32 a b }
{
    a.wrapping_add(b)
}

pub(crate) fn subtract(a: u32, b: u32) -> u32
    ensures { result ≡ difference 32 a b }
{
    a.wrapping_sub(b)
}

pub(crate) fn multiply(a: u32, b: u32) -> u32
    ensures { result ≡ product 32 a b }
{
    a.wrapping_mul(b)
}

pub(crate) fn shift_left(a: u32, by: u64) -> u32
    ensures { result ≡ shifted_left 32 a (by % 32) }
{
    a << (by % 32)
}

pub(crate) fn shift_right(a: u32, by: u64) -> u32
    ensures { result ≡ shifted_right a (by % 32) }
{
    a >> (by % 32)
}

pub(crate) fn shift_right_signed(a: u32, by: u64) -> u32
    ensures { result ≡ shifted_right_signed 32 a (by % 32) }
{
    (a.cast_signed() >> (by % 32)).cast_unsigned()
}

pub(crate) fn divide(a: u32, b: u32) -> u32
    ensures { result ≡ quotient 32 a b }
{
    if b == 0 {
        return u32::MAX;
    }
    a.cast_signed()
        .wrapping_div(b.cast_signed())
        .cast_unsigned()
}

pub(crate) fn remain(a: u32, b: u32) -> u32
    ensures { result ≡ remainder 32 a b }
{
    if b == 0 {
        return a;
    }
    a.cast_signed()
        .wrapping_rem(b.cast_signed())
        .cast_unsigned()
}

pub(crate) fn divide_unsigned(a: u32, b: u32) -> u32
    ensures { result ≡ quotient_unsigned 32 a b }
{
    if b == 0 { u32::MAX } else { a / b }
}

pub(crate) fn remain_unsigned(a: u32, b: u32) -> u32
    ensures { result ≡ remainder_unsigned a b }
{
    if b == 0 { a } else { a % b }
}
