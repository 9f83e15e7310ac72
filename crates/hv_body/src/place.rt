//! Accesses of a guest, and their answers.

use hv_kinds::AddressType;

/// Which bytes a guest accesses.
#[derive(Clone, Copy, Debug, PartialEq, Eq)]
pub struct Place {
    /// The birth of the guest.
    pub birth: u64,
    pub kind: AddressType,
    /// The address of the first byte.
    pub addr: u64,
    /// How many bytes, from 1 to 8.
    pub size: u8,
}

/// What a body answers to an access.
#[derive(Clone, Copy, Debug, PartialEq, Eq)]
pub enum Answer {
    /// What was read, or 0 for a write.
    Answered(u64),
    /// The access is not allowed.
    Denied,
    /// Nothing is fetched from here.
    NoExec,
    /// The bytes are those of an area, from this offset on.
    InArea(u8, u64),
    /// No window of this body holds the access.
    NotHere,
}
