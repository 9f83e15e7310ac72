//! What steps do that reach the memory of guests: fetches, accesses, files that are loaded, and looks.
//!
//! Terms: a pending access is the load or the store that an instruction leaves to be made; the body
//! of a region is its contents while it is live; a shared region shows a part of an area of the
//! host, and a step that reaches it is made there, by a function of its own; what is handed over
//! goes from one component to another, for contracts alone.
#![tactic(auto)]

mod accesses;
mod bytes;
mod fetches;
mod hands;
mod loads;
mod looks;
mod places;
mod ranges;
#[cfg(test)]
mod tests;

pub use accesses::{access, access_shared, access_step, area_accessed};
pub use fetches::{area_fetched, fetch, fetch_shared};
pub use loads::{load, load_missing, load_nowhere, load_shared};
pub use looks::{mem, mem_nowhere, mem_shared};
pub use places::reaches;
pub use ranges::area_shown;
