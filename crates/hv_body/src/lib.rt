//! What stands behind a guest's addresses: the contents of its regions, and areas of the host.
//!
//! Terms: a body is the contents of one region of a guest, RAM, ROM, a device or an area that it
//! shows, while the region is live; a window is a range of guest addresses that reaches it; birth is
//! the number that tells the uses of the guest's slot apart; an area is memory of the host that
//! several guests can share.
#![tactic(auto)]

mod area;
mod body;
mod contents;
mod live;
mod memory;
mod place;
mod room;
#[cfg(test)]
mod tests;
mod window;

pub use area::Area;
pub use body::{Body, BodyOf};
pub use place::{Answer, Place};
pub use room::BodyRoom;
