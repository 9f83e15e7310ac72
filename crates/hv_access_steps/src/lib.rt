//! The steps that reach memory, at the components that they touch, which stand in one list.
//!
//! Terms: parts are components of any kind, in the order in which a step locks them; a shared region
//! shows a part of an area, which stands last where a step reaches it; a step by guest begins at the
//! directory, which admits it where the guest is there at the stage that the step needs.
#![tactic(auto)]

mod accesses;
mod fetches;
mod found;
mod loads;
mod looks;
#[cfg(test)]
mod tests;

pub use accesses::access_at;
pub use fetches::fetch_at;
pub use found::{
    area_of_access, area_of_fetch, area_of_load, area_of_mem, window_of_load, window_of_mem,
};
pub use loads::load_at;
pub use looks::mem_at;
