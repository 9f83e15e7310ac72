//! VCPUs at which a command looks.
ghost use Rattle.std.specs.Prelude.{◌≡◌, ◌≢◌, ◌++◌, [], ◌∷◌, OnOk, codes};
ghost use Rattle.std.specs.Fmt.{decimal};
ghost use Rattle.hv_data.specs.Text.{state_text};
ghost use Rattle.hv_kinds.specs.declared.state.State.TheVariants.{Unknown};
ghost use Rattle.hv_model.specs.Transcript.{line, csrs_shown, dump_shown, register_shown, registers_shown, state_shown, unless_zero};

use hv_data::push_state;
use hv_kinds::State;
use hv_look::{Csrs, Look};
use hv_text::{Bytes, push_decimal, push_hex};
use std::alloc::{AllocError, Global};

// A register with its sixteen digits.
fn push_register(alloc: Global, to: &mut Bytes, name: &[u8], value: u64) -> Result<(), AllocError>
    ensures { OnOk result (to.new ≡ to.old ++ register_shown name.now value) }
{
    to.append(name)?;
    to.append(b" ")?;
    push_hex(alloc, to, value, 16)?;
    to.append(b"\n")
}

// A register that isn't 0.
fn push_unless_zero(
    alloc: Global,
    to: &mut Bytes,
    name: &[u8],
    value: u64,
) -> Result<(), AllocError>
    ensures { OnOk result (to.new ≡ to.old ++ unless_zero name.now value) }
{
    if value == 0 {
        return Ok(());
    }
    push_register(alloc, to, name, value)
}

// A general register that isn't 0.
fn push_general(alloc: Global, to: &mut Bytes, number: u8, value: u64) -> Result<(), AllocError>
    ensures { OnOk result (to.new ≡ to.old ++ registers_shown number (value ∷ [])) }
{
    let name = format!(in alloc; "x{number}")?;
    push_unless_zero(alloc, to, name.as_bytes(), value)
}

fn push_generals(alloc: Global, to: &mut Bytes, values: &[u64; 31]) -> Result<(), AllocError>
    ensures { OnOk result (to.new ≡ to.old ++ registers_shown 1 values.now) }
{
    for place in 0..31u8 {
        push_general(alloc, to, place + 1, values[place as usize])?;
    }
    Ok(())
}

// The registers of a VCPU's last trap.
fn push_trap(alloc: Global, to: &mut Bytes, csrs: &Csrs) -> Result<(), AllocError>
    ensures { OnOk result (to.new ≡ to.old ++ unless_zero (codes "mepc") csrs.now.mepc
        ++ unless_zero (codes "mcause") csrs.now.mcause
        ++ unless_zero (codes "mtval") csrs.now.mtval) }
{
    push_unless_zero(alloc, to, b"mepc", csrs.mepc)?;
    push_unless_zero(alloc, to, b"mcause", csrs.mcause)?;
    push_unless_zero(alloc, to, b"mtval", csrs.mtval)
}

// The registers that say where traps go, and those of the last one.
fn push_handling(alloc: Global, to: &mut Bytes, csrs: &Csrs) -> Result<(), AllocError>
    ensures { OnOk result (to.new ≡ to.old ++ unless_zero (codes "mtvec") csrs.now.mtvec
        ++ unless_zero (codes "mscratch") csrs.now.mscratch
        ++ unless_zero (codes "mepc") csrs.now.mepc
        ++ unless_zero (codes "mcause") csrs.now.mcause
        ++ unless_zero (codes "mtval") csrs.now.mtval) }
{
    push_unless_zero(alloc, to, b"mtvec", csrs.mtvec)?;
    push_unless_zero(alloc, to, b"mscratch", csrs.mscratch)?;
    push_trap(alloc, to, csrs)
}

fn push_csrs(alloc: Global, to: &mut Bytes, csrs: &Csrs) -> Result<(), AllocError>
    ensures { OnOk result (to.new ≡ to.old ++ csrs_shown csrs.now) }
{
    push_unless_zero(alloc, to, b"mstatus", csrs.mstatus)?;
    push_unless_zero(alloc, to, b"mie", csrs.mie)?;
    push_handling(alloc, to, csrs)
}

// What the plan of a VCPU gives it.
fn push_share(alloc: Global, to: &mut Bytes, look: &Look) -> Result<(), AllocError>
    ensures { OnOk result (to.new ≡ to.old ++ codes " priority " ++ decimal look.now.priority
        ++ codes " slice " ++ decimal look.now.slice) }
{
    to.append(b" priority ")?;
    push_decimal(alloc, to, u64::from(look.priority))?;
    to.append(b" slice ")?;
    push_decimal(alloc, to, u64::from(look.slice))
}

// A VCPU with its state.
fn push_stated(alloc: Global, to: &mut Bytes, vcpu: u8, state: State) -> Result<(), AllocError>
    ensures { OnOk result (to.new ≡ to.old ++ codes "vcpu " ++ decimal vcpu ++ 32 ∷ state_text state) }
{
    to.append(b"vcpu ")?;
    push_decimal(alloc, to, u64::from(vcpu))?;
    to.append(b" ")?;
    push_state(alloc, to, state)
}

// The first line of a dump of a VCPU that is known.
fn push_plan(alloc: Global, to: &mut Bytes, vcpu: u8, look: &Look) -> Result<(), AllocError>
    ensures { OnOk result (to.new ≡ to.old ++ line (codes "vcpu " ++ decimal vcpu
        ++ 32 ∷ state_text look.now.state
        ++ codes " priority " ++ decimal look.now.priority
        ++ codes " slice " ++ decimal look.now.slice)) }
{
    push_stated(alloc, to, vcpu, look.state)?;
    push_share(alloc, to, look)?;
    to.append(b"\n")
}

// A VCPU that is known.
fn push_known(alloc: Global, to: &mut Bytes, vcpu: u8, look: &Look) -> Result<(), AllocError>
    requires { look.now.state ≢ Unknown }
    ensures { OnOk result (to.new ≡ to.old ++ dump_shown vcpu look.now.state look.now) }
{
    push_plan(alloc, to, vcpu, look)?;
    push_register(alloc, to, b"pc", look.registers.pc)?;
    push_generals(alloc, to, &look.registers.x)?;
    push_csrs(alloc, to, &look.registers.csrs)
}

// A VCPU that is unknown.
fn push_unknown(alloc: Global, to: &mut Bytes, vcpu: u8) -> Result<(), AllocError>
    ensures { OnOk result (to.new ≡ to.old ++ line (codes "vcpu " ++ decimal vcpu ++ codes " Unknown")) }
{
    to.append(b"vcpu ")?;
    push_decimal(alloc, to, u64::from(vcpu))?;
    to.append(b" Unknown\n")
}

/// Shows a VCPU with its state, its plan and its registers, unless it is unknown.
pub fn show_dump(alloc: Global, to: &mut Bytes, vcpu: u8, look: &Look) -> Result<(), AllocError>
    ensures { OnOk result (to.new ≡ to.old ++ dump_shown vcpu look.now.state look.now) }
{
    if look.state == State::Unknown {
        return push_unknown(alloc, to, vcpu);
    }
    push_known(alloc, to, vcpu, look)
}

/// Shows the state of a VCPU in a list, unless it is unknown.
pub fn show_state(alloc: Global, to: &mut Bytes, vcpu: u8, state: State) -> Result<(), AllocError>
    ensures { OnOk result (to.new ≡ to.old ++ state_shown vcpu state) }
{
    if state == State::Unknown {
        return Ok(());
    }
    push_decimal(alloc, to, u64::from(vcpu))?;
    to.append(b" ")?;
    push_state(alloc, to, state)?;
    to.append(b"\n")
}
