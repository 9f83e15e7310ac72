//! The logs of several actors, merged into one list in order by stamp.
//!
//! Terms: a log is the list of the events that one actor made, with rising stamps; an actor's rank
//! puts it in order among actors whose events have the same stamp: harts come before terminals,
//! each kind by number.
#![tactic(auto)]

mod logs;
mod order;
mod pair;

pub use logs::merge;

#[cfg(test)]
mod tests;
