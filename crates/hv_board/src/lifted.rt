//! Parts that are out of a board.
use crate::board::Board;
use hv_parts::Part;
use std::snapshot::Snapshot;

/// The parts of the components that an event touches, while they are out of their cells.
#[derive(Drop)]
pub struct Lifted<E> {
    pub parts: Vec<Part<E>>,
    /// The stamp of the event.
    pub stamp: u64,
    /// What the parts were when they were taken out.
    pub were: Snapshot<Vec<Part<E>>>,
    /// The board before.
    pub before: Snapshot<Board<E>>,
}
