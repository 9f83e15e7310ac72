//! Results of 64 bits from two words of 64 bits.

ghost use Rattle.std.specs.Prelude.{◌≡◌, ℕ, ◌+◌, ◌-◌, ◌*◌, ◌/◌, ◌%◌, ◌^◌, ◌<◌, ◌≤◌};
ghost use Rattle.hv_exec.specs.Arithmetic.{sum, difference, shifted_left, shifted_right, shifted_right_signed, is_less, quotient, remainder, quotient_unsigned, remainder_unsigned};

pub(crate) fn add(a: u64, b: u64) -> u64
    ensures { result ≡ sum 64 a b }
{
    a.wrapping_add(b)
}

pub(crate) fn subtract(a: u64, b: u64) -> u64
    ensures { result ≡ difference 64 a b }
{
    a.wrapping_sub(b)
}

pub(crate) fn shift_left(a: u64, by: u64) -> u64
    ensures { result ≡ shifted_left 64 a (by % 64) }
{
    a << (by % 64)
}

pub(crate) fn shift_right(a: u64, by: u64) -> u64
    ensures { result ≡ shifted_right a (by % 64) }
{
    a >> (by % 64)
}

pub(crate) fn shift_right_signed(a: u64, by: u64) -> u64
    ensures { result ≡ shifted_right_signed 64 a (by % 64) }
{
    (a.cast_signed() >> (by % 64)).cast_unsigned()
}

pub(crate) fn less_signed(a: u64, b: u64) -> bool
    ensures { result ≡ is_less 64 a b }
{
    a.cast_signed() < b.cast_signed()
}

pub(crate) fn divide(a: u64, b: u64) -> u64
    ensures { result ≡ quotient 64 a b }
{
    if b == 0 {
        return u64::MAX;
    }
    a.cast_signed()
        .wrapping_div(b.cast_signed())
        .cast_unsigned()
}

pub(crate) fn remain(a: u64, b: u64) -> u64
    ensures { result ≡ remainder 64 a b }
{
    if b == 0 {
        return a;
    }
    let left = a.cast_signed();
    let right = b.cast_signed();
    left.wrapping_rem(right).cast_unsigned()
}

pub(crate) fn divide_unsigned(a: u64, b: u64) -> u64
    ensures { result ≡ quotient_unsigned 64 a b }
{
    if b == 0 { u64::MAX } else { a / b }
}

pub(crate) fn remain_unsigned(a: u64, b: u64) -> u64
    ensures { result ≡ remainder_unsigned a b }
{
    if b == 0 { a } else { a % b }
}
