//! Events that were made.
use hv_handed::Made;

/// An event that was made: what came of its step, and its stamp.
#[derive(Drop)]
pub struct Happened<E> {
    pub made: Made<E>,
    pub stamp: u64,
}
