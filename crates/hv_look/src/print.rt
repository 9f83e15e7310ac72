//! Looks printed.
ghost use Rattle.std.specs.Prelude.{◌≡◌, ◌++◌, OnOk, OnErr, IfOk};
ghost use Rattle.hv_data.specs.Data.{spaced};
ghost use Rattle.hv_look.specs.Look.{csr_values, values_words, registers_words, look_text};

use crate::look::{Csrs, Look, Registers};
use hv_data::{push_address, push_state};
use hv_text::{Bytes, push_decimal};
use std::alloc::{AllocError, Global};

/// Appends values, each behind a space.
fn push_values(alloc: Global, to: &mut Bytes, values: &[u64]) -> Result<(), AllocError>
    ensures { OnOk result (to.new ≡ to.old ++ spaced (values_words values.now)) }
{
    for value in values {
        to.append(b" ")?;
        push_address(alloc, to, *value)?;
    }
    Ok(())
}

fn push_csrs(alloc: Global, to: &mut Bytes, csrs: &Csrs) -> Result<(), AllocError>
    ensures { OnOk result (to.new ≡ to.old ++ spaced (values_words (csr_values csrs.now))) }
{
    let values = [
        csrs.mstatus,
        csrs.mie,
        csrs.mtvec,
        csrs.mscratch,
        csrs.mepc,
        csrs.mcause,
        csrs.mtval,
    ];
    push_values(alloc, to, &values)
}

fn push_registers(alloc: Global, to: &mut Bytes, registers: &Registers) -> Result<(), AllocError>
    ensures { OnOk result (to.new ≡ to.old ++ spaced (registers_words registers.now)) }
{
    push_values(alloc, to, &[registers.pc])?;
    push_values(alloc, to, &registers.x)?;
    push_csrs(alloc, to, &registers.csrs)
}

fn look_line(alloc: Global, look: &Look) -> Result<Bytes, AllocError>
    ensures { IfOk result (λ line. line ≡ look_text look.now) }
{
    let mut line = Bytes::from_vec(Vec::new(alloc));
    push_state(alloc, &mut line, look.state)?;
    line.append(b" ")?;
    push_decimal(alloc, &mut line, look.priority as u64)?;
    line.append(b" ")?;
    push_decimal(alloc, &mut line, look.slice as u64)?;
    push_registers(alloc, &mut line, &look.registers)?;
    Ok(line)
}

/// Appends what a look shows, as event lines have it. At `Err` nothing has changed.
pub fn print_look(alloc: Global, to: &mut Bytes, look: &Look) -> Result<(), AllocError>
    ensures ok { OnOk result (to.new ≡ to.old ++ look_text look.now) }
    ensures err { OnErr result (to.new ≡ to.old) }
{
    let line = look_line(alloc, look)?;
    to.append(line.as_slice())
}
