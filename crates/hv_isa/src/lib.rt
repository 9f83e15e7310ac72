//! Instruction words: the instruction that a word is, and the word of an instruction.
#![tactic(auto)]

mod decoding;
mod encoding;
mod fields;
mod packing;
#[cfg(test)]
mod tests;

pub use decoding::decode;
pub use encoding::encode;
