//! Device trees in memory: nodes with properties and children, under the rules on names and phandles.
//! cell: four bytes that hold a number, the highest byte first
//! phandle: the number of a node that others refer to
#![tactic(auto)]

mod node;
#[cfg(test)]
mod tests;
mod tree;
mod values;

pub use node::{Node, Prop, PropRefusal};
pub use tree::Tree;
pub use values::big_endian;
