//! Which signals changed.

/// What a step changed of a region's signals.
#[derive(Clone, Copy, Debug, PartialEq, Eq)]
pub struct SignalChanges {
    /// Whether the interrupt line changed.
    pub line: bool,
    /// Bit i is set where the pins of the guest's VCPU i changed; 0 to 15.
    pub pins: u8,
}
