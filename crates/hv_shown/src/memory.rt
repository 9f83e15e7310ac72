//! Bytes of memory, sixteen on a line.
ghost use Rattle.std.specs.Prelude.{◌≡◌, ◌+◌, ◌*◌, ◌<◌, ◌≤◌, ◌^◌, ◌++◌, IfOk, OnOk, length};
ghost use Rattle.std.specs.List.{flat_map};
ghost use Rattle.hv_model.specs.Transcript.{answer_shown, byte_shown, memory_line, memory_shown};

use crate::lines::{show_done, show_refused};
use hv_refusal::Refusal;
use hv_text::{Bytes, hex_pair, push_hex};
use std::alloc::{AllocError, Global};

const BYTES_A_LINE: usize = 16;

fn push_byte(to: &mut Bytes, byte: u8) -> Result<(), AllocError>
    ensures { OnOk result (to.new ≡ to.old ++ byte_shown byte) }
{
    to.append(b" ")?;
    to.append(&hex_pair(byte))
}

fn push_bytes(to: &mut Bytes, bytes: &[u8]) -> Result<(), AllocError>
    ensures { OnOk result (to.new ≡ to.old ++ flat_map byte_shown bytes.now) }
{
    for byte in bytes {
        push_byte(to, *byte)?;
    }
    Ok(())
}

// The line of this number, which has some of the bytes.
fn push_memory_line(
    alloc: Global,
    to: &mut Bytes,
    address: u64,
    bytes: &[u8],
    number: usize,
) -> Result<(), AllocError>
    requires some { 16 * number < length bytes.now }
    requires fits { address + length bytes.now ≤ 2 ^ 64 }
    ensures { OnOk result (to.new ≡ to.old ++ memory_line address bytes.now number) }
{
    let start = BYTES_A_LINE * number;
    let end = bytes.len().min(start + BYTES_A_LINE);
    push_hex(alloc, to, address + start as u64, 16)?;
    to.append(b":")?;
    push_bytes(to, &bytes[start..end])?;
    to.append(b"\n")
}

fn push_memory(alloc: Global, to: &mut Bytes, address: u64, bytes: &[u8]) -> Result<(), AllocError>
    requires { address + length bytes.now ≤ 2 ^ 64 }
    ensures { OnOk result (to.new ≡ to.old ++ memory_shown address bytes.now) }
{
    for number in 0..(bytes.len() + (BYTES_A_LINE - 1)) / BYTES_A_LINE {
        push_memory_line(alloc, to, address, bytes, number)?;
    }
    Ok(())
}

/// Shows the bytes of memory from an address on.
pub(crate) fn show_memory(
    alloc: Global,
    to: &mut Bytes,
    address: u64,
    answer: &Result<Bytes, Refusal>,
) -> Result<(), AllocError>
    requires { IfOk answer.now (λ bytes. address + length bytes ≤ 2 ^ 64) }
    ensures { OnOk result
        (to.new ≡ to.old ++ answer_shown (memory_shown address) answer.now) }
{
    match answer {
        Ok(bytes) => {
            push_memory(alloc, to, address, bytes.as_slice())?;
            show_done(to)
        }
        Err(why) => show_refused(alloc, to, why),
    }
}
