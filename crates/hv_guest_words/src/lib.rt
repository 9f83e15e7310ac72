//! Commands on guests, read from lines of the terminals' scripts and printed as lines.
//!
//! Terms: a row is one form of command, named by its first two words, its family and its name; a
//! change is what a command does to VCPUs, those of a guest or one.
#![tactic(auto)]

mod argument;
mod command;
mod print;
mod read;
mod row;

pub use command::{Change, GuestCommand, GuestLineCommand, SerialCommand, VcpuCommand};
pub use print::print_guest_command;
pub use read::{guest_lines_are_unambiguous, guest_lines_say_what_is_told, read_guest_line};

#[cfg(test)]
mod tests;
