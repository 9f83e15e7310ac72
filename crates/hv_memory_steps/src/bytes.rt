//! Bytes that are read out of memory.
ghost use Rattle.std.specs.Prelude.{◌≡◌, ◌+◌, ◌^◌, ◌<◌, ◌≤◌, IfOk, length, slice_range};
ghost use Rattle.hv_body.specs.Rules.{HasMemory};
ghost use Rattle.hv_memory_steps.specs.Ranges.{own_memory};

use hv_body::{Area, BodyOf};
use hv_emu::Emulator;
use hv_text::Bytes;
use std::alloc::{AllocError, Global};

/// Bytes of a region's own memory, from an offset on.
pub(crate) fn own_bytes<E: Emulator>(
    alloc: Global,
    body: &BodyOf<E>,
    offset: u64,
    size: u64,
) -> Result<Bytes, AllocError>
    requires within { HasMemory body.now (offset + size) }
    requires bounded { offset + size < 2 ^ 64 }
    ensures { IfOk result (λ bytes. bytes ≡ slice_range (own_memory body.now) offset (offset + size)) }
{
    let mut bytes = Vec::new(alloc);
    for index in 0..size {
        let Some(byte) = body.byte(offset + index) else {
            unreachable!();
        };
        bytes.push(byte)?;
    }
    Ok(Bytes::from_vec(bytes))
}

/// Bytes of an area, from an offset on.
pub(crate) fn area_bytes(
    alloc: Global,
    area: &Area,
    offset: u64,
    size: u64,
) -> Result<Bytes, AllocError>
    requires within { offset + size ≤ length area.now }
    requires bounded { offset + size < 2 ^ 64 }
    ensures { IfOk result (λ bytes. bytes ≡ slice_range area.now offset (offset + size)) }
{
    let mut bytes = Vec::new(alloc);
    for index in 0..size {
        let Some(byte) = area.byte(offset + index) else {
            unreachable!();
        };
        bytes.push(byte)?;
    }
    Ok(Bytes::from_vec(bytes))
}
