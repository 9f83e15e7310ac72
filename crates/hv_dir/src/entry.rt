//! An entry of the directory.

use hv_kinds::Stage;
use hv_text::Bytes;

/// A guest of the board.
#[derive(Debug, Drop)]
pub struct Entry {
    pub name: Bytes,
    /// Which slot it has, below `SLOTS`.
    pub slot: u8,
    /// How many claims were granted before its own.
    pub birth: u64,
    pub stage: Stage,
}
