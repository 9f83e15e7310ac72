//! Guest addresses.
ghost use Rattle.std.specs.Prelude.{◌≡◌, ◌^◌};
ghost use Rattle.hv_region.specs.Addresses.{end_of, IsPlaceOf};

use hv_kinds::AddressType;

pub(crate) const MEMORY_END: u64 = 0x0100_0000_0000_0000;

const IO_END: u64 = 0x0001_0000_0000;

/// The first address behind those of a type.
pub fn end_of(kind: AddressType) -> u64
    ensures { result ≡ end_of kind }
{
    match kind {
        AddressType::Memory => MEMORY_END,
        AddressType::Io => IO_END,
    }
}

/// The type and the place that an address of an instruction means.
pub fn guest_place(addr: u64) -> Option<(AddressType, u64)>
    ensures { IsPlaceOf addr result }
{
    if addr < MEMORY_END {
        return Some((AddressType::Memory, addr));
    }
    let at = addr - MEMORY_END;
    if at < IO_END {
        return Some((AddressType::Io, at));
    }
    None
}
