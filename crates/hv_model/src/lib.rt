//! The abstract hypervisor: what a run begins with, what each step may do, which histories are
//! legal and complete, and what the report of a history is.
//!
//! Terms: a cell is a component or an actor; a carry is the data handed over between the parts of a
//! step; an entry is an event with its carry; the boot part of a history is Terminal 0's alone.
#![tactic(auto)]

mod entry;
mod laws;
mod opening;

pub use entry::{Carry, Entry};
pub use laws::{
    a_history_has_one_report, closed_board_is_legal, hello_example, lines_on_guests_go_on,
    rounds_are_legal,
};
pub use opening::Opening;
