//! The fields of an instruction word.

ghost use Rattle.std.specs.Prelude.{◌≡◌, ℕ, ◌+◌, ◌-◌, ◌*◌, ◌/◌, ◌%◌, ◌^◌, ◌<◌};
ghost use Rattle.hv_exec.specs.Fields.{IsOffset, IsSigned};
ghost use Rattle.hv_isa.specs.Formats as formats;
ghost use Rattle.hv_isa.specs.Formats.{bits};

pub(crate) fn rd(word: u32) -> u8
    ensures { result ≡ formats.rd word }
{
    ((word >> 7) % 32) as u8
}

pub(crate) fn rs1(word: u32) -> u8
    ensures { result ≡ formats.rs1 word }
{
    ((word >> 15) % 32) as u8
}

pub(crate) fn rs2(word: u32) -> u8
    ensures { result ≡ formats.rs2 word }
{
    ((word >> 20) % 32) as u8
}

pub(crate) fn funct3(word: u32) -> u32
    ensures { result ≡ bits word 12 3 }
{
    (word >> 12) % 8
}

pub(crate) fn funct6(word: u32) -> u32
    ensures { result ≡ bits word 26 6 }
{
    word >> 26
}

pub(crate) fn funct7(word: u32) -> u32
    ensures { result ≡ bits word 25 7 }
{
    word >> 25
}

// A shift amount of six bits.
pub(crate) fn long_amount(word: u32) -> u8
    ensures { result ≡ bits word 20 6 }
{
    ((word >> 20) % 64) as u8
}

// Bits 31 to 20.
pub(crate) fn upper_field(word: u32) -> u16
    ensures { result ≡ bits word 20 12 }
{
    (word >> 20) as u16
}

// Bits 31 to 12.
pub(crate) fn upper_immediate(word: u32) -> u32
    ensures { result ≡ bits word 12 20 }
{
    word >> 12
}

pub(crate) fn i_immediate(word: u32) -> i32
    ensures value { result ≡ formats.i_immediate word }
    ensures fits { IsSigned 12 result }
{
    let raw = (word >> 20) as i32;
    if raw < 0x800 { raw } else { raw - 0x1000 }
}

pub(crate) fn s_immediate(word: u32) -> i32
    ensures value { result ≡ formats.s_immediate word }
    ensures fits { IsSigned 12 result }
{
    let raw = ((word >> 25) * 32 + (word >> 7) % 32) as i32;
    if raw < 0x800 { raw } else { raw - 0x1000 }
}

pub(crate) fn b_immediate(word: u32) -> i32
    ensures value { result ≡ formats.b_immediate word }
    ensures fits { IsOffset 13 result }
{
    let high = (word >> 31) * 0x1000 + (word >> 7) % 2 * 0x800;
    let raw = (high + (word >> 25) % 64 * 32 + (word >> 8) % 16 * 2) as i32;
    if raw < 0x1000 { raw } else { raw - 0x2000 }
}

pub(crate) fn j_immediate(word: u32) -> i32
    ensures value { result ≡ formats.j_immediate word }
    ensures fits { IsOffset 21 result }
{
    let high = (word >> 31) * 0x10_0000 + (word >> 12) % 256 * 0x1000;
    let raw = (high + (word >> 20) % 2 * 0x800 + (word >> 21) % 1024 * 2) as i32;
    if raw < 0x10_0000 {
        raw
    } else {
        raw - 0x20_0000
    }
}
