//! The kinds of guest addresses.

/// Which of its two address spaces a guest means.
#[derive(Clone, Copy, Debug, PartialEq, Eq)]
pub enum AddressType {
    Memory,
    Io,
}
