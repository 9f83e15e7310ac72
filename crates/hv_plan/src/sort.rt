//! Sorts of regions.

/// What a region's node says that it is.
#[derive(Clone, Copy, Debug, PartialEq, Eq)]
pub(crate) enum Sort {
    Ram,
    Rom,
    Device,
    Real,
    Alias,
}
