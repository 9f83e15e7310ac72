//! The files: a tree of folders and files that is kept in memory.
#![tactic(auto)]

mod check;
mod laws;
mod node;
mod refusal;
#[cfg(test)]
mod tests;
mod tree;
mod walk;

pub use laws::{files_are_listed, files_are_loaded, files_change};
pub use refusal::FileRefusal;
pub use tree::FileTree;
