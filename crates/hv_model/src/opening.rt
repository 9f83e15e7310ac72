//! What a run begins with.
use hv_bundle::File;
use hv_region::{Fault, GuestPlan};
use hv_text::{Bytes, Items, Strings};

/// What a run begins with.
#[derive(Drop)]
pub struct Opening {
    pub harts: u32,
    /// How many turns each hart makes.
    pub turns: u32,
    pub files: Items<File>,
    /// The name of each area, and how many bytes it has.
    pub areas: Items<(Bytes, u64)>,
    /// The plan of each guest of the host tree, or what is wrong with it.
    pub plans: Items<Result<GuestPlan, Fault>>,
    /// The boot script, and then those of Terminal 0 upwards.
    pub scripts: Strings,
}
