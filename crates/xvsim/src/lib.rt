//! The commands: a run of a bundle with its report, a check of one, and a bundle made of a number.
//!
//! Terms: the opening is what a run begins with; the history is its events by rising logical time
//! stamp; the report is the text of what the terminals showed and of the history.
#![tactic(auto)]

mod check;
mod generate;
mod input;
mod kept;
mod limits;
mod refusal;
mod report;
mod run;
mod status;
mod top;
mod words;

pub use kept::{Final, Kept, KeptOf, KeptRun, KeptRunOf};
pub use status::Status;
pub use top::{check_bundle, gen_bundle, xvsim};

#[cfg(test)]
mod tests;
