//! Where parts stand in their list.
ghost use Rattle.std.specs.Prelude.{◌≡◌};
ghost use Rattle.hv_parts.specs.Admission.{directories};

use hv_step::ByGuest;

/// How many directories stand before the other parts of a VCPU's step.
pub(crate) fn directories(guest: &Option<ByGuest>) -> usize
    ensures { result ≡ directories guest.now }
{
    match guest {
        Some(_) => 1,
        None => 0,
    }
}
