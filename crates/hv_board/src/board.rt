//! Boards.
use crate::cell::Cell;
use crate::layout::Layout;
use hv_parts::Part;
use std::alloc::Global;

/// The components of a board, each in its cell.
#[derive(Drop)]
pub struct Board<E> {
    pub(crate) alloc: Global,
    pub(crate) layout: Layout,
    pub(crate) cells: Vec<Cell<E>>,
    /// Where the parts stand that are out, or were out last.
    pub(crate) places: Vec<usize>,
    /// Room for the parts that an event takes out.
    pub(crate) room: Vec<Part<E>>,
}
