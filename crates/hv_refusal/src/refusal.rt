//! Refusals: why a step is refused.
use hv_kinds::{Cause, Stage, StateName};
use hv_text::Bytes;

/// Why a step is refused.
#[derive(Clone, Debug, Drop, PartialEq, Eq)]
pub enum Refusal {
    /// The line is no command.
    NoCommand,
    /// The word of this number, from 1, doesn't fit, is missing or is too much.
    BadWords(u64),
    /// A name on the way, or the last one, is missing.
    NoEntry,
    /// A file stands where a folder is needed.
    NotDir,
    /// A folder stands where a file is needed.
    IsDir,
    /// Something stands there already.
    Exists,
    /// The folder has entries.
    NotEmpty,
    /// Too many scripts are open.
    TooDeep,
    /// The scripts have too many lines.
    TooLong,
    /// The file is no source of a device tree; the place is the offset of the first byte at fault.
    BadTree(u64),
    /// The file is no assembler source; the number, from 1, is that of the first line at fault.
    BadAsm(u64),
    /// The directory has no guest of this name.
    NoSuchGuest,
    /// The guest's stage isn't the one that the step needs; the stage that it has.
    GuestState(Stage),
    /// The guest's plan has no region of this name.
    NoRegion,
    /// The host tree has no guest of this name.
    NoGuest,
    /// The guest has no good plan: the path of its first faulty node, and the cause.
    BadNode(Bytes, Cause),
    /// A guest of this name is in the directory already.
    NameUsed,
    /// No slot is free.
    NoSlot,
    /// The row has a window already.
    Live,
    /// The row has no window.
    NotLive,
    /// The window would meet that of another row; the least such row.
    Overlap(u8),
    /// No window of the alias's target holds its range.
    AliasTarget,
    /// The pool has no device that is compatible.
    NoEmulator,
    /// No one memory window holds the range.
    NoWindow,
    /// What the window reaches is no memory.
    NotMemory,
    /// No live device with serial bytes is there.
    NotSerial,
    /// The VCPU's state doesn't allow the step; the state that it has.
    WrongState(StateName),
}
