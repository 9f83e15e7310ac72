//! Tokens of device tree source.
//! blank: white space or a comment
//! name: 1 to 31 letters, digits and `_`, no digit first
//! word: letters, digits and `,._+-?#@`
//! piece: a byte of a string, or an escape that stands for one
#![tactic(auto)]

mod blank;
mod class;
mod digits;
mod form;
mod next;
mod string;
#[cfg(test)]
mod tests;
mod token;
mod value_form;

pub use digits::{cell_of, number_value};
pub use next::next_token;
pub use string::string_value;
pub use token::{BadToken, Mode, Token, TokenKind};
