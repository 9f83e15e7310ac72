//! Terminals that run their scripts in rounds over one file tree.
#![tactic(auto)]

mod board;
mod files;
mod open;
mod phases;
mod script;
mod scripts;
mod show;
mod split;
mod step;
mod stop;
mod terminal;
#[cfg(test)]
mod tests;
mod turn;
mod whole;

pub use whole::{Outcome, run};
