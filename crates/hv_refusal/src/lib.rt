//! The refusals of steps, their words, and refusals read from words.
//!
//! Terms: a datum is one word that a refusal tells behind its name; a row is the index of a guest's
//! region; the path of a node is its place in a device tree.
#![tactic(auto)]

mod arguments;
mod node;
mod print;
mod read;
mod refusal;

pub use node::{is_node_name, node_path_word};
pub use print::print_refusal;
pub use read::{read_refusal, refusals_are_unambiguous, refusals_have_no_space};
pub use refusal::Refusal;

#[cfg(test)]
mod tests;
