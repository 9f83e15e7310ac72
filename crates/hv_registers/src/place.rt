//! The places of registers of one kind.

ghost use Rattle.std.specs.Prelude.{◌≡◌, ◌<◌};
ghost use Rattle.hv_emu.specs.Registers as registers;

/// Which of `count` registers stands at an offset, where the first stands at `base` and each next
/// one a stride behind it. Offsets are in bytes.
pub fn index_at(base: u64, stride: u64, count: usize, offset: u64) -> Option<usize>
    requires { 0 < stride }
    ensures { result ≡ registers.index_at base stride count offset }
{
    if offset < base || (offset - base) % stride != 0 {
        return None;
    }
    let index = (offset - base) / stride;
    if index < count as u64 {
        Some(index as usize)
    } else {
        None
    }
}
