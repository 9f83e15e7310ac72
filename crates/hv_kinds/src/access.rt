//! How a guest's memory is accessed.

/// Whether a load or a store is made.
#[derive(Clone, Copy, Debug, PartialEq, Eq)]
pub enum Direction {
    Read,
    Write,
}

/// Whether an instruction is fetched, or a load or a store is made.
#[derive(Clone, Copy, Debug, PartialEq, Eq)]
pub enum AccessKind {
    Execute,
    Read,
    Write,
}
