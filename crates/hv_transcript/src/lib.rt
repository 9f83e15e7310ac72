//! What terminals have shown: the text of a terminal's transcript, and what it has to know of the
//! present line to show the line's end.
//!
//! Terms: a step that the session asked for is shown; a step that is owed, an interrupt, isn't.
#![tactic(auto)]

mod asked;
mod copied;
mod going;
mod kept;
mod laws;
#[cfg(test)]
mod tests;
mod transcript;

pub use laws::{transcripts_begin_so, transcripts_grow};
pub use transcript::Transcript;
