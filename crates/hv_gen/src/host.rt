//! The host tree of the generated guests.
ghost use Rattle.std.specs.Prelude.{◌≡◌, ◌++◌, IfOk, OnOk};
ghost use Rattle.std.specs.List.{flat_map, range_with_len};
ghost use Rattle.hv_gen.specs.Host.{vcpus_text, ram_text, serial_port_text, guest_line, host_text};

use hv_text::{Bytes, push_decimal};
use std::alloc::{AllocError, Global};

#[tactic(auto, unfolding(crate::specs::Host::vcpus_text))]
fn push_vcpus(to: &mut Bytes) -> Result<(), AllocError>
    ensures { OnOk result (to.new ≡ to.old ++ vcpus_text) }
{
    to.append(b"vcpus { v0 { start_pc = <0x80000000>; }; v1 { start_pc = <0x80000000>; }; };")
}

#[tactic(auto, unfolding(crate::specs::Host::ram_text))]
fn push_ram(to: &mut Bytes) -> Result<(), AllocError>
    ensures { OnOk result (to.new ≡ to.old ++ ram_text) }
{
    to.append(
        b"ram { manifest_type = \"virtual\"; address_type = \"memory\"; \
          guest_physical_addr = <0x80000000>; physical_size = <0x10000>; device_type = \"ram\"; };",
    )
}

#[tactic(auto, unfolding(crate::specs::Host::serial_port_text))]
fn push_serial_port(to: &mut Bytes) -> Result<(), AllocError>
    ensures { OnOk result (to.new ≡ to.old ++ serial_port_text) }
{
    to.append(
        b"uart { manifest_type = \"virtual\"; address_type = \"memory\"; \
          guest_physical_addr = <0x10000000>; physical_size = <8>; compatible = \"ns16550\"; };",
    )
}

fn push_guest(alloc: Global, to: &mut Bytes, guest: u64) -> Result<(), AllocError>
    ensures { OnOk result (to.new ≡ to.old ++ guest_line guest) }
{
    to.append(b"g")?;
    push_decimal(alloc, to, guest)?;
    to.append(b" { ")?;
    push_vcpus(to)?;
    to.append(b" aspace { ")?;
    push_ram(to)?;
    to.append(b" ")?;
    push_serial_port(to)?;
    to.append(b" }; };\n")
}

fn push_guests(alloc: Global, to: &mut Bytes, guests: u64) -> Result<(), AllocError>
    ensures { OnOk result (to.new ≡ to.old ++ flat_map guest_line (range_with_len 0 guests)) }
{
    'guests: for guest in 0..guests {
        push_guest(alloc, to, guest)?;
    }
    Ok(())
}

/// The source of the host tree with so many guests.
#[tactic(auto, unfolding(crate::specs::Host::host_text))]
pub fn host_text(alloc: Global, guests: u64) -> Result<Bytes, AllocError>
    ensures { IfOk result (λ text. text ≡ host_text guests) }
{
    let mut text = Bytes::from_vec(Vec::new(alloc));
    text.append(b"/dts-v1/;\n/ {\nguests {\n")?;
    push_guests(alloc, &mut text, guests)?;
    text.append(b"};\n};\n")?;
    Ok(text)
}
