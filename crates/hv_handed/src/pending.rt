//! Accesses that are pending.

/// A load or a store that an instruction leaves pending.
#[derive(Clone, Copy, Debug, PartialEq, Eq)]
pub enum Pending {
    /// Where it goes, how many bytes it has, how they are extended, and the register that it loads to.
    Load {
        address: u64,
        size: u8,
        is_signed: bool,
        register: u8,
    },
    /// Where it goes, how many bytes it has, and the value that it stores.
    Store {
        address: u64,
        size: u8,
        value: u64,
    },
}
