//! Device tree source: the tree that a source stands for, and trees printed as source.
//! label: a name by which references lead to a node
//! phandle: the number of a node, which it has in the source or is given
#![tactic(auto)]

mod build;
mod linking;
mod members;
mod names;
mod phandles;
mod print;
mod read;
mod references;
mod refusal;
mod sibling_names;
#[cfg(test)]
mod tests;
#[cfg(test)]
mod tests_reading;
mod values;

pub use print::print_dts;
pub use read::read_dts;
pub use refusal::DtsRefusal;
