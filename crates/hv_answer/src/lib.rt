//! The replies of steps, their words, and replies read from words.
//!
//! Terms: a reply is what came of a step; a step gives something, or it is refused; the cause of a trap
//! or an interrupt is its number; a hart's queue has the VCPUs that are ready to run on it.
#![tactic(auto)]

mod given;
mod print;
mod read;
mod refused;
mod reply;
mod told;

pub use print::print_reply;
pub use read::{read_reply, replies_are_unambiguous, replies_have_no_space};
pub use reply::{Accessed, Fetched, Moved, Outcome, Pinned, Reply, Sampled};

#[cfg(test)]
mod tests;
