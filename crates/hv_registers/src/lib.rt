//! Where a device has its registers, and those that it keeps per context.
//!
//! Terms: a stride is the distance of one register to the next of its kind; a context is what a
//! device keeps per VCPU.
#![tactic(auto)]

mod place;
mod words;

pub use place::index_at;
pub use words::{ContextWords, resize, set_word, word_at};

#[cfg(test)]
mod tests;
