//! A large valid input made of a number: a board of guests that all run one program.
#![tactic(auto)]

mod boot;
mod files;
mod host;
mod program;

pub use files::gen_files;

#[cfg(test)]
mod tests;
