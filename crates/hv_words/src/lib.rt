//! Commands of the terminals' scripts, read from lines and printed as lines.
//!
//! Terms: a word is a longest piece of a line without spaces; a row is one form of command, named by
//! its first two words, its family and its name; a command line is a line of a script that is not
//! skipped.
#![tactic(auto)]

mod argument;
mod command;
mod print;
mod read;
mod refusal;
mod row;
mod script;
mod text;
mod word;

pub use argument::read_path;
pub use command::Command;
pub use print::{print_command, push_text};
pub use read::{
    is_printable, lines_are_unambiguous, lines_say_what_is_told, read_command, read_end,
};
pub use refusal::WordsRefusal;
pub use script::{Script, count_lines};
pub use text::read_text;
pub use word::{is_skipped_line, next_word};

#[cfg(test)]
mod tests;
