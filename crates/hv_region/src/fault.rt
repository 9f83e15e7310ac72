//! What is wrong with the plan of a guest.
use hv_kinds::Cause;
use hv_text::Bytes;

/// The first thing that is wrong with a guest.
#[derive(Debug, Drop)]
pub struct Fault {
    /// The path of the faulty node.
    pub path: Bytes,
    pub cause: Cause,
}
