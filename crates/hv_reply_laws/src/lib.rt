//! Laws of the replies to terminals' steps, from the rules of the components.
#![tactic(auto)]

mod laws;

pub use laws::{memory_shown_ends_within, steps_are_replied_to, steps_bring_regions_of_the_board};
