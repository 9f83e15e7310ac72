//! Laws of the bounds within which a board's run keeps its components.
//!
//! They hold of each state that a run leads to from an opening whose areas and guests are good, as
//! those of a host tree are: windows show and lead to what there is, the areas have the bytes that
//! regions show, and interrupts go to other regions.
#![tactic(auto)]

mod laws;

pub use laws::{
    boards_are_bounded, host_trees_are_good, legal_histories_are_bounded, regions_can_be,
    runs_are_bounded,
};
