//! Laws of the guests of a board: the windows of a guest's address space and those of its regions
//! are the same.
//!
//! They hold of every run, whatever harts and terminals do, provided that no terminal adds a region
//! that can't be, or lets a slot go whose guest has a window.
#![tactic(auto)]

mod laws;

pub use laws::{
    accesses_reach_one_region, legal_histories_match, one_region_answers, the_row_is_the_only_one,
    windows_match_regions,
};
