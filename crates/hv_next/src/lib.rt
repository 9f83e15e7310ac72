//! The definitions of the abstract hypervisor leave nothing open: what a terminal does next, and
//! what comes of a run in rounds.
#![tactic(auto)]

mod laws;

pub use laws::{a_run_in_rounds_has_one_history, a_terminal_has_one_next_event};
