//! Which guest a slot held.

/// A slot and the birth of the guest in it.
#[derive(Clone, Copy, Debug, PartialEq, Eq)]
pub struct Generation {
    pub slot: u8,
    /// How many guests were claimed before.
    pub birth: u64,
}
