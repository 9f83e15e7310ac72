//! The registers, by the memory map of the PLIC Specification 1.0.0.

ghost use Rattle.std.specs.Prelude.{◌≡◌, ◌<◌, IfSome, Some, None, if◌then◌else◌, ◌&&◌, ◌==◌, ◌%◌, option_map};
ghost use Rattle.hv_emu.specs.Plic.{plic_register};
ghost use Rattle.hv_plic.specs.Registers.{meaning_of};

use hv_registers::index_at;

// Sources 0 to 31, where 0 is none.
pub(crate) const SOURCES: usize = 32;

// The priority of source 0, with the others each 4 bytes further.
const PRIORITY: u64 = 0x00_0000;

const PENDING: u64 = 0x00_1000;

// The enable bits of context 0, with the others each 0x80 bytes further.
const ENABLE: u64 = 0x00_2000;

// The threshold of context 0, with the others each 0x1000 bytes further.
const THRESHOLD: u64 = 0x20_0000;

// Claim and completion of context 0, with the others each 0x1000 bytes further.
const CLAIM: u64 = 0x20_0004;

/// A register of the controller, of a source or of a context where it has a number.
#[derive(Clone, Copy)]
pub enum Register {
    Priority(usize),
    Pending,
    Enable(usize),
    Threshold(usize),
    ClaimComplete(usize),
    /// A place with no register, which reads 0 and isn't written.
    Reserved,
}

/// The register that an access reaches, among those of so many contexts. None means that the
/// access is denied.
pub(crate) fn register_at(contexts: usize, offset: u64, size: u8) -> Option<Register>
    ensures register { option_map meaning_of result
        ≡ (if (size == 4) && (offset % 4 == 0) then Some (plic_register contexts offset) else None) }
{
    if size == 4 && offset % 4 == 0 {
        Some(aligned_register(contexts, offset))
    } else {
        None
    }
}

fn aligned_register(contexts: usize, offset: u64) -> Register
    ensures { meaning_of result ≡ plic_register contexts offset }
{
    if let Some(source) = index_at(PRIORITY, 4, SOURCES, offset) {
        return if source == 0 {
            Register::Reserved
        } else {
            Register::Priority(source)
        };
    }
    if offset == PENDING {
        return Register::Pending;
    }
    if let Some(context) = index_at(ENABLE, 0x80, contexts, offset) {
        return Register::Enable(context);
    }
    if let Some(context) = index_at(THRESHOLD, 0x1000, contexts, offset) {
        return Register::Threshold(context);
    }
    match index_at(CLAIM, 0x1000, contexts, offset) {
        Some(context) => Register::ClaimComplete(context),
        None => Register::Reserved,
    }
}
