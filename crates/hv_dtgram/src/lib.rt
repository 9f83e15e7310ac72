//! The grammar of device tree source, and what a source contains.
//! entry: a property, or the beginning or the end of a node, with its names and values
//! piece: what a token says, a mark, a name or a value
#![tactic(auto)]

mod contents;
mod entries;
mod gathered;
mod grammar;
mod lexed;
mod step;
mod symbol;
mod syntax;
#[cfg(test)]
mod tests;
mod word;

pub use contents::{Cell, Entry, Named, Value};
pub use entries::read_entries;
pub use syntax::{SyntaxRefusal, source_tokens};
