//! The components of a board as one type, so that those which a step touches stand in one list.
#![tactic(auto)]

mod boxed;
mod lent;
mod part;
mod read;
#[cfg(test)]
mod tests;

pub use boxed::Boxed;
pub use lent::{
    area_mut, body_mut, directory_mut, files_mut, queue_mut, shelf_mut, space_mut, vcpu_mut,
};
pub use part::Part;
pub use read::{area, body, directory, files, queue, shelf, space, vcpu};
