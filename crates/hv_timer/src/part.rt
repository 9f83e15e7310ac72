//! What an access reaches of a register of 8 bytes.

ghost use Rattle.std.specs.Prelude.{◌≡◌, ◌^◌, ◌<◌, ◌≤◌, ◌⊎◌};
ghost use Rattle.hv_emu.specs.Timer.{part_of, part_value, with_part};
ghost use Rattle.hv_timer.specs.Registers.{device_part, bytes_of};

// 2^32, by which the high half counts.
const HIGH_UNIT: u64 = 0x1_0000_0000;

/// The part of a register of 8 bytes that an access reaches.
#[derive(Clone, Copy)]
pub enum Part {
    Whole,
    LowHalf,
    HighHalf,
}

impl Part {
    /// The part at an offset that an access of 4 or 8 bytes reaches.
    pub(crate) fn at(offset: u64, size: u8) -> Part
        requires { (size ≡ 4) ⊎ (size ≡ 8) }
        ensures part { device_part result ≡ part_of offset size }
        ensures size { size ≤ bytes_of result }
    {
        if size == 8 {
            Part::Whole
        } else if offset % 8 == 0 {
            Part::LowHalf
        } else {
            Part::HighHalf
        }
    }

    /// The part's value in a word.
    pub(crate) fn value(self, word: u64) -> u64
        ensures { result ≡ part_value word (device_part self) }
    {
        match self {
            Part::Whole => word,
            Part::LowHalf => word % HIGH_UNIT,
            Part::HighHalf => word / HIGH_UNIT,
        }
    }

    /// A word with the part written, and the other half as it was.
    pub(crate) fn written(self, word: u64, value: u64) -> u64
        requires { value < 256 ^ bytes_of self }
        ensures { result ≡ with_part word (device_part self) value }
    {
        match self {
            Part::Whole => value,
            Part::LowHalf => word / HIGH_UNIT * HIGH_UNIT + value,
            Part::HighHalf => value * HIGH_UNIT + word % HIGH_UNIT,
        }
    }
}
