//! The two halves of a product of 128 bits.

ghost use Rattle.std.specs.Prelude.{◌≡◌, ℕ, ◌+◌, ◌-◌, ◌*◌, ◌/◌, ◌%◌, ◌^◌, ◌<◌, ◌≤◌, ℤ, pos, ◌*ℤ◌};
ghost use Rattle.hv_exec.specs.Numbers.{signed};
ghost use Rattle.hv_exec.specs.Arithmetic.{product, high_half};

pub(crate) fn multiply(a: u64, b: u64) -> u64
    ensures { result ≡ product 64 a b }
{
    a.wrapping_mul(b)
}

// Both words are read as signed.
pub(crate) fn high_signed(a: u64, b: u64) -> u64
    ensures { result ≡ high_half (signed 64 a *ℤ signed 64 b) }
{
    high(i128::from(a.cast_signed()) * i128::from(b.cast_signed()))
}

// The first word is read as signed.
pub(crate) fn high_mixed(a: u64, b: u64) -> u64
    ensures { result ≡ high_half (signed 64 a *ℤ pos b) }
{
    high(i128::from(a.cast_signed()) * i128::from(b))
}

pub(crate) fn high_unsigned(a: u64, b: u64) -> u64
    ensures { result ≡ high_half (pos a *ℤ pos b) }
{
    let product = u128::from(a) * u128::from(b);
    (product >> 64) as u64
}

fn high(product: i128) -> u64
    ensures { result ≡ high_half product }
{
    (product.cast_unsigned() >> 64) as u64
}
