//! The definitions of the abstract hypervisor leave nothing open for harts either: what a hart does
//! next, that it has something to do, and what comes of a run in rounds.
#![tactic(auto)]

mod laws;

pub use laws::{
    a_hart_has_a_next_event, a_hart_has_one_next_event, an_actor_has_one_next_event,
    an_owing_terminal_has_a_next_event, rounds_have_one_history, running_vcpus_are_of_their_guests,
};
