//! Refusals printed.
ghost use Rattle.std.specs.Prelude.{◌≡◌, ◌++◌, OnOk, OnErr};
ghost use Rattle.std.specs.Fmt.{decimal};
ghost use Rattle.hv_refusal.specs.Refusal.{refusal_text};

use crate::refusal::Refusal;
use hv_data::{push_stage, push_state_name};
use hv_text::{Bytes, push_decimal};
use std::alloc::{AllocError, Global};

fn push_numbered(alloc: Global, to: &mut Bytes, name: &[u8], number: u64) -> Result<(), AllocError>
    ensures { OnOk result (to.new ≡ to.old ++ (name.now ++ decimal number)) }
{
    to.append(name)?;
    push_decimal(alloc, to, number)
}

fn push_refusal(alloc: Global, to: &mut Bytes, refusal: &Refusal) -> Result<(), AllocError>
    ensures { OnOk result (to.new ≡ to.old ++ refusal_text refusal.now) }
{
    match refusal {
        Refusal::NoCommand => to.append(b"NoCommand"),
        Refusal::BadWords(number) => push_numbered(alloc, to, b"BadWords ", *number),
        Refusal::NoEntry => to.append(b"NoEntry"),
        Refusal::NotDir => to.append(b"NotDir"),
        Refusal::IsDir => to.append(b"IsDir"),
        Refusal::Exists => to.append(b"Exists"),
        Refusal::NotEmpty => to.append(b"NotEmpty"),
        Refusal::TooDeep => to.append(b"TooDeep"),
        Refusal::TooLong => to.append(b"TooLong"),
        Refusal::BadTree(offset) => push_numbered(alloc, to, b"BadTree ", *offset),
        Refusal::BadAsm(line) => push_numbered(alloc, to, b"BadAsm ", *line),
        Refusal::NoSuchGuest => to.append(b"NoSuchGuest"),
        Refusal::GuestState(stage) => {
            to.append(b"GuestState ")?;
            push_stage(to, *stage)
        }
        Refusal::NoRegion => to.append(b"NoRegion"),
        Refusal::NoGuest => to.append(b"NoGuest"),
        Refusal::BadNode(path, cause) => {
            to.append(b"BadNode ")?;
            to.append(path.as_slice())?;
            to.append(b" ")?;
            to.append(cause.name().as_bytes())
        }
        Refusal::NameUsed => to.append(b"NameUsed"),
        Refusal::NoSlot => to.append(b"NoSlot"),
        Refusal::Live => to.append(b"Live"),
        Refusal::NotLive => to.append(b"NotLive"),
        Refusal::Overlap(row) => push_numbered(alloc, to, b"Overlap ", *row as u64),
        Refusal::AliasTarget => to.append(b"AliasTarget"),
        Refusal::NoEmulator => to.append(b"NoEmulator"),
        Refusal::NoWindow => to.append(b"NoWindow"),
        Refusal::NotMemory => to.append(b"NotMemory"),
        Refusal::NotSerial => to.append(b"NotSerial"),
        Refusal::WrongState(state) => {
            to.append(b"WrongState ")?;
            push_state_name(to, *state)
        }
    }
}

/// Appends a refusal's text, as reports and event lines have it. At `Err` nothing has changed.
pub fn print_refusal(alloc: Global, to: &mut Bytes, refusal: &Refusal) -> Result<(), AllocError>
    ensures ok { OnOk result (to.new ≡ to.old ++ refusal_text refusal.now) }
    ensures err { OnErr result (to.new ≡ to.old) }
{
    let mut text = Bytes::from_vec(Vec::new(alloc));
    push_refusal(alloc, &mut text, refusal)?;
    to.append(text.as_slice())
}
