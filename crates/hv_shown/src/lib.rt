//! What terminals show: the answers to commands, the ends of lines, and the lines of VCPUs.
//!
//! Terms: each call appends text; when memory runs out, what was appended so far may stand.
#![tactic(auto)]

mod answers;
mod ends;
mod guests;
mod lines;
mod looks;
mod memory;
mod steps;
#[cfg(test)]
mod tests;

pub use ends::{show_count, show_end, show_slot};
pub use lines::{show_begun, show_done, show_refused};
pub use looks::{show_dump, show_state};
pub use steps::{show_reply, show_step};
