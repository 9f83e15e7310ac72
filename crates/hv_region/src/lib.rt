//! Windows of a guest's address space, and the plans of guests, of their regions and of their VCPUs.
//! window: a range of guest addresses of one type that reaches a region
//! owner: the region that a window was made for; target: the region that it reaches, another one for an alias
//! birth: the number that tells the uses of a guest's slot apart
#![tactic(auto)]

mod address;
mod fault;
mod list;
mod plan;
#[cfg(test)]
mod tests;
mod window;

pub use address::{end_of, guest_place};
pub use fault::Fault;
pub use list::WindowList;
pub use plan::{Form, GuestPlan, RegionPlan, VcpuPlan};
pub use window::{RegionRefusal, Window};
