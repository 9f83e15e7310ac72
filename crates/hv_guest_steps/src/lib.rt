//! What the steps on guests and their regions do to the components that they touch.
//!
//! Terms: the directory has the guests; the pool has the devices that no guest has; a space has the
//! windows of a guest's regions, and a body is what stands behind one of them; a step by guest is
//! admitted where the guest is there at the stage that the step needs. A region is of a row of its
//! guest; an alias is a window to another region, its target.
#![tactic(auto)]

mod adding;
mod admission;
mod checks;
mod directory;
mod handed;
mod listing;
mod meeting;
mod removal;
mod row;
mod search;
#[cfg(test)]
mod tests;

pub use adding::{add, not_added};
pub use admission::{admit, admit_region, refused};
pub use checks::addition;
pub use directory::{guests, name, stage};
pub use listing::regions;
pub use removal::{drop, live_window, not_live};
pub use row::{GuestRow, NotAdded};
