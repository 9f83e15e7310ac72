//! The emulators that a run begins with.
ghost use Rattle.std.specs.Prelude.{All, map, OnOk};
ghost use Rattle.hv_emu.specs.Device.{IsInReset};

use hv_emu::Emulator;
use std::alloc::AllocError;

/// Resets an emulator, and adds it behind others that are as a reset leaves them.
pub fn add<E: Emulator>(parts: &mut Vec<E>, part: E) -> Result<(), AllocError>
    requires { All IsInReset (map E.state parts.old.items) }
    ensures { OnOk result (All IsInReset (map E.state parts.new.items)) }
{
    let mut part = part;
    part.reset();
    parts.push(part)?;
    Ok(())
}
