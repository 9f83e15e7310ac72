//! The queue of the VCPUs that are ready on a hart.
//! entry: a VCPU with the priority that it came with
//! head: the first entry of the greatest priority, which the hart runs next
#![tactic(auto)]

mod entry;
mod queue;
#[cfg(test)]
mod tests;

pub use entry::QueueEntry;
pub use queue::Queue;
