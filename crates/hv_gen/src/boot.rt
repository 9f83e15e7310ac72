//! The boot script of the generated guests.
ghost use Rattle.std.specs.Prelude.{◌≡◌, ◌++◌, IfOk, OnOk};
ghost use Rattle.std.specs.List.{flat_map, range_with_len};
ghost use Rattle.hv_gen.specs.Boot.{create_line, load_line, kick_line, start_lines, boot_text};

use hv_text::{Bytes, push_decimal};
use std::alloc::{AllocError, Global};

#[tactic(auto, unfolding(crate::specs::Boot::create_line))]
fn push_create(alloc: Global, to: &mut Bytes, guest: u64) -> Result<(), AllocError>
    ensures { OnOk result (to.new ≡ to.old ++ create_line guest) }
{
    to.append(b"guest create g")?;
    push_decimal(alloc, to, guest)?;
    to.append(b"\n")
}

#[tactic(auto, unfolding(crate::specs::Boot::load_line))]
fn push_load(alloc: Global, to: &mut Bytes, guest: u64) -> Result<(), AllocError>
    ensures { OnOk result (to.new ≡ to.old ++ load_line guest) }
{
    to.append(b"vfs guest_load g")?;
    push_decimal(alloc, to, guest)?;
    to.append(b" /p.bin 0x80000000\n")?;
    Ok(())
}

#[tactic(auto, unfolding(crate::specs::Boot::kick_line))]
fn push_kick(alloc: Global, to: &mut Bytes, guest: u64) -> Result<(), AllocError>
    ensures { OnOk result (to.new ≡ to.old ++ kick_line guest) }
{
    to.append(b"guest kick g")?;
    push_decimal(alloc, to, guest)?;
    to.append(b"\n")
}

fn push_start(alloc: Global, to: &mut Bytes, guest: u64) -> Result<(), AllocError>
    ensures { OnOk result (to.new ≡ to.old ++ start_lines guest) }
{
    push_create(alloc, to, guest)?;
    push_load(alloc, to, guest)?;
    push_kick(alloc, to, guest)
}

fn push_starts(alloc: Global, to: &mut Bytes, guests: u64) -> Result<(), AllocError>
    ensures { OnOk result (to.new ≡ to.old ++ flat_map start_lines (range_with_len 0 guests)) }
{
    'guests: for guest in 0..guests {
        push_start(alloc, to, guest)?;
    }
    Ok(())
}

/// The script that assembles the program, and makes, loads and starts so many guests.
#[tactic(auto, unfolding(crate::specs::Boot::boot_text))]
pub fn boot_text(alloc: Global, guests: u64) -> Result<Bytes, AllocError>
    ensures { IfOk result (λ text. text ≡ boot_text guests) }
{
    let mut text = Bytes::from_vec(Vec::new(alloc));
    text.append(b"vfs asm /p.s /p.bin\n")?;
    push_starts(alloc, &mut text, guests)?;
    text.append(b"vcpu kick 0\n")?;
    Ok(text)
}
