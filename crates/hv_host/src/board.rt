//! A host with its guests.
use hv_plan::Host;
use hv_region::{Fault, GuestPlan};

/// What a host tree says.
#[derive(Debug, Drop)]
pub struct Board {
    pub host: Host,
    /// The plan of each guest, or what is wrong with it, in the order of the host's guests.
    pub plans: Vec<Result<GuestPlan, Fault>>,
}
