//! Commands on guests printed as lines.
ghost use Rattle.std.specs.Prelude.{◌≡◌, ◌++◌, [], ◌∷◌, List, ℕ, OnOk, IfOk};
ghost use Rattle.std.specs.Fmt.{decimal};
ghost use Rattle.std.specs.List.{flat_map};
ghost use Rattle.hv_text.specs.Path.{path_text};
ghost use Rattle.hv_words.specs.Print.{byte_text};
ghost use Rattle.hv_guest_words.specs.Table.{line_by};
ghost use Rattle.hv_guest_words.specs.GuestCommands.{guest_table, command_text, Gives};

use crate::command::{GuestCommand, GuestLineCommand, SerialCommand, VcpuCommand};
use crate::row::{RowName, family_word, name_word};
use hv_text::{Bytes, Path, push_decimal};
use hv_words::push_text;
use std::alloc::{AllocError, Global};

fn push_word(to: &mut Bytes, word: &[u8]) -> Result<(), AllocError>
    ensures { OnOk result (to.new ≡ to.old ++ 32 ∷ word.now) }
{
    to.append(b" ")?;
    to.append(word)
}

fn push_number(alloc: Global, to: &mut Bytes, number: u64) -> Result<(), AllocError>
    ensures { OnOk result (to.new ≡ to.old ++ 32 ∷ decimal number) }
{
    to.append(b" ")?;
    push_decimal(alloc, to, number)
}

/// The two words of a row.
fn row_line(alloc: Global, row: RowName) -> Result<Bytes, AllocError>
    ensures { IfOk result (λ line. line ≡ line_by guest_table row []) }
{
    let mut line = Bytes::from_vec(Vec::from_slice(alloc, family_word(row))?);
    push_word(&mut line, name_word(row))?;
    Ok(line)
}

/// The words of a row, and one more.
fn word_line(alloc: Global, row: RowName, word: &[u8]) -> Result<Bytes, AllocError>
    ensures { IfOk result (λ line. line ≡ line_by guest_table row (word.now ∷ [])) }
{
    let mut line = row_line(alloc, row)?;
    push_word(&mut line, word)?;
    Ok(line)
}

/// The words of a row, and two more.
fn two_words_line(
    alloc: Global,
    row: RowName,
    one: &[u8],
    other: &[u8],
) -> Result<Bytes, AllocError>
    ensures { IfOk result (λ line. line ≡ line_by guest_table row (one.now ∷ other.now ∷ [])) }
{
    let mut line = word_line(alloc, row, one)?;
    push_word(&mut line, other)?;
    Ok(line)
}

/// The words of a row, and a number.
fn number_line(alloc: Global, row: RowName, number: u64) -> Result<Bytes, AllocError>
    ensures { IfOk result (λ line. line ≡ line_by guest_table row (decimal number ∷ [])) }
{
    let mut line = row_line(alloc, row)?;
    push_number(alloc, &mut line, number)?;
    Ok(line)
}

fn load_line(alloc: Global, name: &Bytes, path: &Path, address: u64) -> Result<Bytes, AllocError>
    ensures { IfOk result (λ line.
        line ≡ line_by guest_table RowName.Load
        (name.now ∷ path_text path.now ∷ decimal address ∷ [])) }
{
    let path = path.text(alloc)?;
    let mut line = two_words_line(alloc, RowName::Load, name.as_slice(), path.as_slice())?;
    push_number(alloc, &mut line, address)?;
    Ok(line)
}

fn mem_line(alloc: Global, name: &Bytes, address: u64, count: u64) -> Result<Bytes, AllocError>
    ensures { IfOk result (λ line.
        line ≡ line_by guest_table RowName.GuestMem
        (name.now ∷ decimal address ∷ decimal count ∷ [])) }
{
    let mut line = word_line(alloc, RowName::GuestMem, name.as_slice())?;
    push_number(alloc, &mut line, address)?;
    push_number(alloc, &mut line, count)?;
    Ok(line)
}

fn send_line(alloc: Global, name: &Bytes, region: &Bytes, text: &Bytes) -> Result<Bytes, AllocError>
    ensures { IfOk result (λ line.
        line ≡ line_by guest_table RowName.SerialSend
        (name.now ∷ region.now ∷ flat_map byte_text text.now ∷ [])) }
{
    let mut line = two_words_line(
        alloc,
        RowName::SerialSend,
        name.as_slice(),
        region.as_slice(),
    )?;
    line.append(b" ")?;
    push_text(&mut line, text.as_slice())?;
    Ok(line)
}

fn guest_line(alloc: Global, command: &GuestCommand) -> Result<Bytes, AllocError>
    ensures { IfOk result (λ line. line ≡ command_text (GuestLineCommand.Guest command.now)) }
{
    match command {
        GuestCommand::List => row_line(alloc, RowName::GuestList),
        GuestCommand::Create(name) => word_line(alloc, RowName::GuestCreate, name.as_slice()),
        GuestCommand::Destroy(name) => word_line(alloc, RowName::GuestDestroy, name.as_slice()),
        GuestCommand::Change(change, name) => {
            word_line(alloc, RowName::GuestChange(*change), name.as_slice())
        }
        GuestCommand::RegionAdd(name, region) => two_words_line(
            alloc,
            RowName::GuestRegionAdd,
            name.as_slice(),
            region.as_slice(),
        ),
        GuestCommand::RegionDel(name, region) => two_words_line(
            alloc,
            RowName::GuestRegionDel,
            name.as_slice(),
            region.as_slice(),
        ),
        GuestCommand::Regions(name) => word_line(alloc, RowName::GuestRegions, name.as_slice()),
        GuestCommand::Mem(name, address, count) => mem_line(alloc, name, *address, *count),
    }
}

fn vcpu_line(alloc: Global, command: &VcpuCommand) -> Result<Bytes, AllocError>
    ensures { IfOk result (λ line. line ≡ command_text (GuestLineCommand.Vcpu command.now)) }
{
    match command {
        VcpuCommand::List => row_line(alloc, RowName::VcpuList),
        VcpuCommand::Change(change, number) => {
            number_line(alloc, RowName::VcpuChange(*change), *number as u64)
        }
        VcpuCommand::Dump(number) => number_line(alloc, RowName::VcpuDump, *number as u64),
    }
}

fn serial_line(alloc: Global, command: &SerialCommand) -> Result<Bytes, AllocError>
    ensures { IfOk result (λ line. line ≡ command_text (GuestLineCommand.Serial command.now)) }
{
    match command {
        SerialCommand::Send(name, region, text) => send_line(alloc, name, region, text),
        SerialCommand::Dump(name, region) => two_words_line(
            alloc,
            RowName::SerialDump,
            name.as_slice(),
            region.as_slice(),
        ),
    }
}

fn line_of(alloc: Global, command: &GuestLineCommand) -> Result<Bytes, AllocError>
    ensures { IfOk result (λ line. line ≡ command_text command.now) }
{
    match command {
        GuestLineCommand::Load(name, path, address) => load_line(alloc, name, path, *address),
        GuestLineCommand::Guest(command) => guest_line(alloc, command),
        GuestLineCommand::Vcpu(command) => vcpu_line(alloc, command),
        GuestLineCommand::Serial(command) => serial_line(alloc, command),
    }
}

/// The line of a command on guests.
pub fn print_guest_command(alloc: Global, command: &GuestLineCommand) -> Result<Bytes, AllocError>
    ensures text { IfOk result (λ line. line ≡ command_text command.now) }

    // What some line gives is given by the printed line too.
    ensures reads_back { IfOk result (λ line.
        (other : List ℕ) → Gives other command.now → Gives line command.now) }
{
    line_of(alloc, command)
}
