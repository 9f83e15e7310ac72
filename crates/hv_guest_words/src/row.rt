//! The rows of commands on guests.
ghost use Rattle.std.specs.Prelude.{◌≡◌};
ghost use Rattle.hv_guest_words.specs.GuestRows.{change_word, row_named, row_in, row_with};

use crate::command::Change;

/// A form of command, named by its first two words.
#[derive(Clone, Copy, Debug)]
pub enum RowName {
    Load,
    GuestList,
    GuestCreate,
    GuestDestroy,
    GuestChange(Change),
    GuestRegionAdd,
    GuestRegionDel,
    GuestRegions,
    GuestMem,
    VcpuList,
    VcpuChange(Change),
    VcpuDump,
    SerialSend,
    SerialDump,
}

/// Every row.
const ROWS: [RowName; 22] = [
    RowName::Load,
    RowName::GuestList,
    RowName::GuestCreate,
    RowName::GuestDestroy,
    RowName::GuestChange(Change::Kick),
    RowName::GuestChange(Change::Resume),
    RowName::GuestChange(Change::Pause),
    RowName::GuestChange(Change::Halt),
    RowName::GuestChange(Change::Reset),
    RowName::GuestRegionAdd,
    RowName::GuestRegionDel,
    RowName::GuestRegions,
    RowName::GuestMem,
    RowName::VcpuList,
    RowName::VcpuChange(Change::Kick),
    RowName::VcpuChange(Change::Resume),
    RowName::VcpuChange(Change::Pause),
    RowName::VcpuChange(Change::Halt),
    RowName::VcpuChange(Change::Reset),
    RowName::VcpuDump,
    RowName::SerialSend,
    RowName::SerialDump,
];

/// The word of a change.
fn change_word(change: Change) -> &'static [u8]
    ensures { result.now ≡ change_word change }
{
    match change {
        Change::Kick => b"kick",
        Change::Resume => b"resume",
        Change::Pause => b"pause",
        Change::Halt => b"halt",
        Change::Reset => b"reset",
    }
}

/// The first word of a row.
pub fn family_word(row: RowName) -> &'static [u8]
    ensures { result.now ≡ (row_named row).family }
{
    match row {
        RowName::Load => b"vfs",
        RowName::GuestList => b"guest",
        RowName::GuestCreate => b"guest",
        RowName::GuestDestroy => b"guest",
        RowName::GuestChange(_) => b"guest",
        RowName::GuestRegionAdd => b"guest",
        RowName::GuestRegionDel => b"guest",
        RowName::GuestRegions => b"guest",
        RowName::GuestMem => b"guest",
        RowName::VcpuList => b"vcpu",
        RowName::VcpuChange(_) => b"vcpu",
        RowName::VcpuDump => b"vcpu",
        RowName::SerialSend => b"vserial",
        RowName::SerialDump => b"vserial",
    }
}

/// The second word of a row.
pub fn name_word(row: RowName) -> &'static [u8]
    ensures { result.now ≡ (row_named row).name }
{
    match row {
        RowName::Load => b"guest_load",
        RowName::GuestList => b"list",
        RowName::GuestCreate => b"create",
        RowName::GuestDestroy => b"destroy",
        RowName::GuestChange(change) => change_word(change),
        RowName::GuestRegionAdd => b"region_add",
        RowName::GuestRegionDel => b"region_del",
        RowName::GuestRegions => b"regions",
        RowName::GuestMem => b"mem",
        RowName::VcpuList => b"list",
        RowName::VcpuChange(change) => change_word(change),
        RowName::VcpuDump => b"dump",
        RowName::SerialSend => b"send",
        RowName::SerialDump => b"dump",
    }
}

/// The first of some rows that has a family and a name.
fn find_in(rows: &[RowName], family: &[u8], name: &[u8]) -> Option<RowName>
    ensures { result ≡ row_in rows.now family.now name.now }
{
    for row in rows {
        if family == family_word(*row) && name == name_word(*row) {
            return Some(*row);
        }
    }
    None
}

/// The row of a family and a name.
pub fn find_row(family: &[u8], name: &[u8]) -> Option<RowName>
    ensures { result ≡ row_with family.now name.now }
{
    find_in(&ROWS, family, name)
}
