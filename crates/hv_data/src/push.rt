//! The words of data, printed.
ghost use Rattle.std.specs.Prelude.{◌≡◌, ◌++◌, OnOk, OnErr};
ghost use Rattle.hv_text.specs.Path.{path_text};
ghost use Rattle.hv_data.specs.Text.{address_text, hex_pairs, hex_text, further_names, names_text, generation_text, stage_text, next_stage_text};
ghost use Rattle.hv_data.specs.Text.{address_type_text, state_text, state_name_text, direction_text, access_kind_text, changes_text};

use hv_kinds::{
    AccessKind, AddressType, Direction, Generation, SignalChanges, Stage, State, StateName,
};
use hv_text::{Bytes, Path, Strings, hex_pair};
use std::alloc::{AllocError, Global};

/// Appends an address, a machine word or a register's value. At `Err` nothing has changed.
pub fn push_address(alloc: Global, to: &mut Bytes, value: u64) -> Result<(), AllocError>
    ensures ok { OnOk result (to.new ≡ to.old ++ address_text value) }
    ensures err { OnErr result (to.new ≡ to.old) }
{
    let text = format!(in alloc; "0x{value:x}")?;
    to.append(text.as_bytes())
}

fn push_pairs(to: &mut Bytes, bytes: &[u8]) -> Result<(), AllocError>
    ensures { OnOk result (to.new ≡ to.old ++ hex_pairs bytes.now) }
{
    for byte in bytes {
        to.append(&hex_pair(*byte))?;
    }
    Ok(())
}

/// Appends bytes in hexadecimal digits. At `Err` nothing has changed.
pub fn push_bytes(alloc: Global, to: &mut Bytes, bytes: &Bytes) -> Result<(), AllocError>
    ensures ok { OnOk result (to.new ≡ to.old ++ hex_text bytes.now) }
    ensures err { OnErr result (to.new ≡ to.old) }
{
    let bytes = bytes.as_slice();
    if bytes.is_empty() {
        return to.append(b"-");
    }
    let mut pairs = Bytes::from_vec(Vec::new(alloc));
    push_pairs(&mut pairs, bytes)?;
    to.append(pairs.as_slice())
}

/// Appends a path. At `Err` nothing has changed.
pub fn push_path(alloc: Global, to: &mut Bytes, path: &Path) -> Result<(), AllocError>
    ensures ok { OnOk result (to.new ≡ to.old ++ path_text path.now) }
    ensures err { OnErr result (to.new ≡ to.old) }
{
    let text = path.text(alloc)?;
    to.append(text.as_slice())
}

fn push_further_names(to: &mut Bytes, names: &[Bytes]) -> Result<(), AllocError>
    ensures { OnOk result (to.new ≡ to.old ++ further_names names.now) }
{
    for name in names {
        to.append(b",")?;
        to.append(name.as_slice())?;
    }
    Ok(())
}

/// Appends the names of a folder's entries. At `Err` nothing has changed.
pub fn push_names(to: &mut Bytes, names: &Strings) -> Result<(), AllocError>
    ensures ok { OnOk result (to.new ≡ to.old ++ names_text names.now) }
    ensures err { OnErr result (to.new ≡ to.old) }
{
    match names.as_slice().split_first() {
        Some((first, others)) => {
            let mut text = first.clone()?;
            push_further_names(&mut text, others)?;
            to.append(text.as_slice())
        }
        None => to.append(b"."),
    }
}

/// Appends a generation, or that there is none. At `Err` nothing has changed.
pub fn push_generation(
    alloc: Global,
    to: &mut Bytes,
    generation: Option<Generation>,
) -> Result<(), AllocError>
    ensures ok { OnOk result (to.new ≡ to.old ++ generation_text generation) }
    ensures err { OnErr result (to.new ≡ to.old) }
{
    match generation {
        None => to.append(b"@-"),
        Some(Generation { slot, birth }) => {
            let text = format!(in alloc; "@{slot}.{birth}")?;
            to.append(text.as_bytes())
        }
    }
}

/// Appends a stage. At `Err` nothing has changed.
pub fn push_stage(to: &mut Bytes, stage: Stage) -> Result<(), AllocError>
    ensures ok { OnOk result (to.new ≡ to.old ++ stage_text stage) }
    ensures err { OnErr result (to.new ≡ to.old) }
{
    match stage {
        Stage::Making => to.append(b"Making"),
        Stage::Made => to.append(b"Made"),
        Stage::Ending => to.append(b"Ending"),
    }
}

/// Appends the stage that follows; none is `Free`. At `Err` nothing has changed.
pub fn push_next_stage(to: &mut Bytes, stage: Option<Stage>) -> Result<(), AllocError>
    ensures ok { OnOk result (to.new ≡ to.old ++ next_stage_text stage) }
    ensures err { OnErr result (to.new ≡ to.old) }
{
    match stage {
        None => to.append(b"Free"),
        Some(stage) => push_stage(to, stage),
    }
}

/// Appends a type of addresses. At `Err` nothing has changed.
pub fn push_address_type(to: &mut Bytes, address: AddressType) -> Result<(), AllocError>
    ensures ok { OnOk result (to.new ≡ to.old ++ address_type_text address) }
    ensures err { OnErr result (to.new ≡ to.old) }
{
    match address {
        AddressType::Memory => to.append(b"memory"),
        AddressType::Io => to.append(b"io"),
    }
}

/// Appends a state, with its hart or whether it waits. At `Err` nothing has changed.
pub fn push_state(alloc: Global, to: &mut Bytes, state: State) -> Result<(), AllocError>
    ensures ok { OnOk result (to.new ≡ to.old ++ state_text state) }
    ensures err { OnErr result (to.new ≡ to.old) }
{
    match state {
        State::Unknown => to.append(b"Unknown"),
        State::Reset => to.append(b"Reset"),
        State::Ready => to.append(b"Ready"),
        State::Running(hart) => {
            let text = format!(in alloc; "Running{hart}")?;
            to.append(text.as_bytes())
        }
        State::Paused(false) => to.append(b"Paused"),
        State::Paused(true) => to.append(b"Paused/wfi"),
        State::Halted => to.append(b"Halted"),
    }
}

/// Appends a state's name alone. At `Err` nothing has changed.
pub fn push_state_name(to: &mut Bytes, state: StateName) -> Result<(), AllocError>
    ensures ok { OnOk result (to.new ≡ to.old ++ state_name_text state) }
    ensures err { OnErr result (to.new ≡ to.old) }
{
    match state {
        StateName::Unknown => to.append(b"Unknown"),
        StateName::Reset => to.append(b"Reset"),
        StateName::Ready => to.append(b"Ready"),
        StateName::Running => to.append(b"Running"),
        StateName::Paused => to.append(b"Paused"),
        StateName::Halted => to.append(b"Halted"),
    }
}

/// Appends `r` or `w`. At `Err` nothing has changed.
pub fn push_direction(to: &mut Bytes, direction: Direction) -> Result<(), AllocError>
    ensures ok { OnOk result (to.new ≡ to.old ++ direction_text direction) }
    ensures err { OnErr result (to.new ≡ to.old) }
{
    match direction {
        Direction::Read => to.append(b"r"),
        Direction::Write => to.append(b"w"),
    }
}

/// Appends `x`, `r` or `w`. At `Err` nothing has changed.
pub fn push_access_kind(to: &mut Bytes, access: AccessKind) -> Result<(), AllocError>
    ensures ok { OnOk result (to.new ≡ to.old ++ access_kind_text access) }
    ensures err { OnErr result (to.new ≡ to.old) }
{
    match access {
        AccessKind::Execute => to.append(b"x"),
        AccessKind::Read => to.append(b"r"),
        AccessKind::Write => to.append(b"w"),
    }
}

/// Appends signal changes. At `Err` nothing has changed.
pub fn push_changes(alloc: Global, to: &mut Bytes, changes: SignalChanges) -> Result<(), AllocError>
    ensures ok { OnOk result (to.new ≡ to.old ++ changes_text changes) }
    ensures err { OnErr result (to.new ≡ to.old) }
{
    let pins = changes.pins;
    let text = match changes.line {
        true => format!(in alloc; "m1.{pins:x}")?,
        false => format!(in alloc; "m0.{pins:x}")?,
    };
    to.append(text.as_bytes())
}
