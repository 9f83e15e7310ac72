//! The registers, by the memory map of the SiFive CLINT.

ghost use Rattle.std.specs.Prelude.{◌≡◌, ◌≤◌, ◌⊎◌, IfSome, Some, None, if◌then◌else◌, option_map};
ghost use Rattle.hv_emu.specs.Timer.{timer_answers, timer_register};
ghost use Rattle.hv_timer.specs.Registers.{device_register, greatest_size};

use crate::part::Part;
use hv_registers::index_at;

// The msip of context 0, with the others each 4 bytes further.
const MSIP: u64 = 0x0000;

// The mtimecmp of context 0, with the others each 8 bytes further.
const MTIMECMP: u64 = 0x4000;

const MTIME: u64 = 0xbff8;

/// A register of the timer, of a context where it has a number.
#[derive(Clone, Copy)]
pub enum Register {
    Msip(usize),
    Mtimecmp(usize, Part),
    Mtime(Part),
    /// A place with no register, which reads 0 and isn't written.
    Unused,
}

/// The register that an access reaches, among those of so many contexts. None means that the
/// access is denied.
pub(crate) fn register_at(contexts: usize, offset: u64, size: u8) -> Option<Register>
    ensures register { option_map device_register result
        ≡ (if timer_answers offset size then Some (timer_register contexts offset size) else None) }
    ensures size { IfSome result (λ register. size ≤ greatest_size register) }
{
    let narrow = size == 4 && offset % 4 == 0;
    let wide = size == 8 && offset % 8 == 0 && offset >= MTIMECMP;
    if narrow || wide {
        Some(answering_register(contexts, offset, size))
    } else {
        None
    }
}

fn answering_register(contexts: usize, offset: u64, size: u8) -> Register
    requires { (size ≡ 4) ⊎ (size ≡ 8) }
    ensures register { device_register result ≡ timer_register contexts offset size }
    ensures size { size ≤ greatest_size result }
{
    if offset < MTIMECMP {
        return match index_at(MSIP, 4, contexts, offset) {
            Some(context) => Register::Msip(context),
            None => Register::Unused,
        };
    }
    let part = Part::at(offset, size);
    let start = offset - offset % 8;
    if start == MTIME {
        return Register::Mtime(part);
    }
    match index_at(MTIMECMP, 8, contexts, start) {
        Some(context) => Register::Mtimecmp(context, part),
        None => Register::Unused,
    }
}
