//! A bundle's files, loaded into a file tree.
#![tactic(auto)]

mod load;
#[cfg(test)]
mod tests;

pub use load::load_tree;
