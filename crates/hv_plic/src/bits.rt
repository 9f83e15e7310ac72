//! Sets of sources, as words with bit s for source s.

ghost use Rattle.std.specs.Prelude.{◌≡◌, ◌^◌, ◌<◌};
ghost use Rattle.hv_emu.specs.Registers as registers;

pub(crate) fn is_set(word: u64, bit: u8) -> bool
    requires { bit < 32 }
    ensures { result ≡ registers.is_set word bit }
{
    (word >> bit) % 2 == 1
}

pub(crate) fn with_bit(word: u64, bit: u8) -> u64
    requires { bit < 32 }
    ensures { result ≡ registers.with_bit word bit }
{
    word | (1 << bit)
}

pub(crate) fn without_bit(word: u64, bit: u8) -> u64
    requires { bit < 32 }
    ensures { result ≡ registers.without_bit word bit }
{
    word - (word & (1 << bit))
}
