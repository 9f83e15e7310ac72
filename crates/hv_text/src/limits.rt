//! The limits of a board, which definitions and code read here.

/// The most harts that a host has.
pub const HARTS: usize = 8;
/// The slots of a board: the most guests that live at once.
pub const SLOTS: usize = 8;
/// The most VCPUs of a guest.
pub const GUEST_VCPUS: usize = 4;
/// The VCPUs of a board: the orphan VCPU 0, and four for each slot.
pub const VCPUS: usize = 33;
/// The most regions of a guest.
pub const GUEST_REGIONS: usize = 16;
/// The most areas of host memory.
pub const MOST_AREAS: usize = 8;
/// The most bytes of a RAM, a ROM or an area.
pub const MOST_MEMORY: u64 = 16_777_216;
/// The terminals of a board.
pub const TERMINALS: usize = 4;
/// The most scripts that a terminal has open at once.
pub const OPEN_SCRIPTS: usize = 4;
/// The most lines of the scripts of a terminal.
pub const MOST_LINES: usize = 10_000;
/// The greatest logical time stamp, 2^62.
pub const GREATEST_STAMP: u64 = 0x4000_0000_0000_0000;
