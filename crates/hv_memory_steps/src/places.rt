//! Which bytes an instruction means, and whether an area has them.
ghost use Rattle.std.specs.Prelude.{◌≡◌, ◌≤◌, ◌+◌, ◌^◌, IsTrue, length};
ghost use Rattle.hv_rules.specs.Body.{place_of};

use hv_body::{Area, Place};
use hv_region::guest_place;
use hv_rules::searches_find_what_the_rules_name;

/// The bytes of a guest from an instruction's address on, if it means any.
pub(crate) fn place_of(birth: u64, address: u64, size: u8) -> Option<Place>
    ensures { result ≡ place_of birth address size }
{
    searches_find_what_the_rules_name();
    let (kind, addr) = guest_place(address)?;
    Some(Place {
        birth,
        kind,
        addr,
        size,
    })
}

/// Whether an area has so many bytes, at least one, from an offset on.
pub fn reaches(area: &Area, offset: u64, size: u64) -> bool
    requires { 1 ≤ size }
    ensures yes { IsTrue result → offset + size ≤ length area.now }
    ensures no { offset + size ≤ length area.now → offset + size ≤ 2 ^ 64 → IsTrue result }
{
    match offset.checked_add(size - 1) {
        Some(last) => area.byte(last).is_some(),
        None => false,
    }
}
