//! Cells.
use hv_parts::Part;

/// A component, with the stamp of the last event that touched it. Its part is out while an event is
/// made.
#[derive(Drop)]
pub struct Cell<E> {
    pub part: Option<Part<E>>,
    pub stamp: u64,
}
