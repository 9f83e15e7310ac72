//! The settings of a host and the plans of its guests, as a device tree says them.
//! area: memory of the host that guests can share
//! guest: a child of `/guests`; its VCPUs and its regions stand in nodes of their own
//! row: the number of a region in its guest, from 0
//! fault: a node that breaks a rule, by its path, and the cause
#![tactic(auto)]

mod guest;
mod host;
#[cfg(test)]
mod host_tests;
mod link;
mod nest;
mod path;
mod properties;
mod refusal;
mod region;
mod sort;
#[cfg(test)]
mod tests;
mod vcpu;
mod windows;

pub use guest::plan_guest;
pub use host::{Host, host_settings};
pub use hv_kinds::Cause;
pub use hv_region::GuestPlan;
pub use refusal::{HostRefusal, PlanRefusal};
