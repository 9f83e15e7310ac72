//! An entry of a queue.

/// A VCPU that is ready for its hart.
#[derive(Clone, Copy, Debug, PartialEq, Eq, Drop)]
pub struct QueueEntry {
    /// Its number on the board, 0 to 32.
    pub vcpu: u8,
    /// 0 to 7; the greatest goes first.
    pub priority: u8,
}
