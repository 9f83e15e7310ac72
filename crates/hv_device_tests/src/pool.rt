//! A serial port goes from the pool to a guest and back.

ghost use Rattle.hv_emu.specs.Device.{IsInReset};

use hv_dir::{Shelf, ShelfOf};
use hv_emu::Emulator;
use hv_text::{Bytes, Strings};
use hv_uart::Uart;
use std::alloc::{AllocError, Global};
use std::test::Fail;

/// Offset of the scratch register.
const SCR: u64 = 7;

/// A pool of one device.
fn pool_of(alloc: Global, part: Box<dyn Emulator + Send>) -> Result<Shelf, AllocError>
    requires { IsInReset (state part) }
{
    let mut parts = Vec::new(alloc);
    parts.push(part)?;
    Ok(ShelfOf::new(parts))
}

/// What a device tree asks for, the best first.
fn asked_for(alloc: Global) -> Result<Strings, AllocError> {
    let mut names = Strings::new(alloc)?;
    names.push(Bytes::from_vec(Vec::from_slice(alloc, b"vendor,x")?))?;
    names.push(Bytes::from_vec(Vec::from_slice(alloc, b"ns16550")?))?;
    Ok(names)
}

#[test]
#[tactic(auto, unfolding(hv_emu::specs::Device::after_reset))]
fn comes_back_in_its_reset_state(rt: HostRuntime) -> Result<(), Fail> {
    let alloc = rt.alloc();
    let port: Box<dyn Emulator + Send> = Box::new(alloc, Uart::new(alloc)?)?;
    let mut shelf = pool_of(alloc, port)?;
    let names = asked_for(alloc)?;
    let taken = shelf.take(&names);
    assert!(rt; taken.is_ok());
    if let Ok(mut port) = taken {
        assert!(rt; port.write(SCR, 1, 0x5a) && port.read(SCR, 1) == Some(0x5a));
        assert!(rt; shelf.take(&names).is_err());
        shelf.make_room(alloc)?;
        shelf.give_back(port);
    }
    let taken = shelf.take(&names);
    assert!(rt; taken.is_ok());
    if let Ok(mut port) = taken {
        assert!(rt; port.read(SCR, 1) == Some(0));
    }
    assert!(rt; shelf.into_parts().is_empty());
    Ok(())
}
