//! The steps on guests and their regions at the components that they touch, which stand in one list.
//!
//! Terms: parts are components of any kind, in the order in which a step locks them; a step by guest
//! begins at the directory, which admits it where the guest is there at the stage that the step
//! needs, and refuses it else; a region is of a row of its guest, and a body is its contents while it
//! is live; an alias is a window to another region, its target; the components of a case are those
//! that a step touches there.
#![tactic(auto)]

mod adding;
mod devices;
mod directory;
mod listing;
mod refusals;
mod removal;
mod signals;

pub use adding::{add_at, not_added_at};
pub use devices::{devreset_at, feed_at, output_at};
pub use directory::{guests_at, name_at, stage_at};
pub use listing::regions_at;
pub use refusals::refused_at;
pub use removal::{drop_at, not_live_at};
pub use signals::{pin_at, sample_at};
