//! What an instruction does to the context of a hart, and the numbers by which instruction words name it.
#![tactic(auto)]

mod alu;
pub mod causes;
mod context;
pub mod functs;
mod inst;
mod multiply;
pub mod opcodes;
mod operation;
mod perform;
mod result;
#[cfg(test)]
mod tests;
mod word;

pub use context::{After, Ctx};
pub use inst::Inst;
pub use perform::{exec, finish_load, finish_store};
