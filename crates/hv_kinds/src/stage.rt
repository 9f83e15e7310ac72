//! The stages of a guest.

/// How far a guest is made or taken down.
#[derive(Clone, Copy, Debug, PartialEq, Eq)]
pub enum Stage {
    Making,
    Made,
    Ending,
}
