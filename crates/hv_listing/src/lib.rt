//! The lists that `guests` and `regions` give, their words, and lists read from words.
//!
//! Terms: a slot is a guest's place in the directory; a window is where a region stands in a guest's
//! address space; its owner is the row that it belongs to, and its target the row whose contents it
//! shows, which differs from the owner for an alias.
#![tactic(auto)]

mod fields;
mod guest;
mod law;
mod print;
mod read;
mod window;

pub use guest::{GuestList, ListedGuest};
pub use law::{lists_are_unambiguous, lists_have_no_space};
pub use print::{print_guests, print_windows};
pub use read::{guests_word, windows_word};
pub use window::{ListedWindow, WindowList};

#[cfg(test)]
mod tests;
