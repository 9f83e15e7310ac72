//! The rules of the components and the programs of harts and terminals' lines: to which events each
//! component agrees, what it hands over and what an event leaves in it, in terms of the components'
//! own crates; and which step a hart or a line makes next.
#![tactic(auto)]

mod laws;
mod lines;
mod programs;
mod searches;

pub use laws::{components_agree, devices_move, memory_is_reached, steps_are_refused};
pub use lines::lines_make_these_steps;
pub use programs::{harts_make_these_steps, steps_leave_these_harts};
pub use searches::searches_find_what_the_rules_name;
