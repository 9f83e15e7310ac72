//! The names of the steps, and the word for each, with which a step's text begins.
#![tactic(auto)]

mod find;
mod name;

pub use find::{find_name, names_are_unambiguous};
pub use name::{StepName, push_name};

#[cfg(test)]
mod tests;
